//! `connect` and `disconnect`: a node opens a session with another, and closes one.
ghost use Rattle.std.specs.Prelude.{◌≡◌, ◌≢◌, ◌<◌, ◌≤◌, false, true, length, IfErr, OnOk};
ghost use Rattle.memory_count.specs.Faults.{HasReason};
ghost use Rattle.rpc_laws.specs.Groups.{Connects, Disconnects};
ghost use Rattle.session_mgmt.specs.Refusals.{lacks};
ghost use Rattle.sim_script.specs.FollowsScript.{AtNode};
ghost use Rattle.rpc_world.specs.Before.{IsNumbered};
ghost use Rattle.rpc_world.specs.Performed.{Performed};

use crate::landing::land;
use crate::running::Running;
use memory_count::{Memory, NoMemory};
use rpc_base::{MOST_CREDITS, NodeId, Peer, SessionNo};
use rpc_outside::MemRecorder;
use session_mgmt::ConnectError;

// Whether there was no memory for a session.
fn wants_memory(opened: &Result<SessionNo, ConnectError>) -> bool
    ensures other { IfErr opened.now (λ why. result ≡ false → why ≢ ConnectError.NoMemory) }
    ensures lacks { result ≡ true → lacks opened.now ≡ 1 }
{
    match opened {
        Err(ConnectError::NoMemory) => true,
        _ => false,
    }
}

/// `connect A B`: opens a session of node `a` with node `b`, of so many credits and without a rate.
/// That there is no number or no room for it is noted, and no error.
pub fn connect_on(
    memory: &mut Memory,
    stage: &mut Running,
    rec: &mut MemRecorder,
    a: NodeId,
    b: NodeId,
    credits: u16,
) -> Result<(), NoMemory>
    requires node { a < length stage.old.ends }
    requires peer { b < length stage.old.ends }
    requires some { 1 ≤ credits }
    requires most { credits ≤ MOST_CREDITS }
    requires numbered { IsNumbered stage.old }
    ensures performed { OnOk result
        (Performed (AtNode (Connects b credits 0) a)
        stage.old stage.new rec.old.facts.items rec.new.facts.items) }
    ensures cause { HasReason memory.old memory.new result }
{
    let before = rec.facts().len();
    let opening = stage.nodes.at_mut(usize::from(a.0));
    let opened = opening.connect(memory, Peer(b.0), credits, 0, rec);
    if wants_memory(&opened) {
        return Err(NoMemory);
    }
    land(memory, stage, rec, before)?;
    Ok(())
}

/// `disconnect A S`: the node's session begins to close. That it isn't connected, or that calls are
/// pending on it, is noted, and no error.
pub fn disconnect_on(
    memory: &mut Memory,
    stage: &mut Running,
    rec: &mut MemRecorder,
    node: NodeId,
    session: SessionNo,
) -> Result<(), NoMemory>
    requires node { node < length stage.old.ends }
    requires numbered { IsNumbered stage.old }
    ensures performed { OnOk result
        (Performed (AtNode (Disconnects session) node)
        stage.old stage.new rec.old.facts.items rec.new.facts.items) }
    ensures cause { HasReason memory.old memory.new result }
{
    let before = rec.facts().len();
    let closing = stage.nodes.at_mut(usize::from(node.0));
    let _answer = closing.disconnect(session, rec);
    land(memory, stage, rec, before)?;
    Ok(())
}
