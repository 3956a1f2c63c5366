//! `rate`: a session of a node gets a rate.
ghost use Rattle.std.specs.Prelude.{◌≡◌, ◌<◌, length, OnOk};
ghost use Rattle.memory_count.specs.Faults.{HasReason};
ghost use Rattle.rpc_laws.specs.Groups.{SetsRate};
ghost use Rattle.sim_script.specs.FollowsScript.{AtNode};
ghost use Rattle.rpc_world.specs.Before.{IsNumbered};
ghost use Rattle.rpc_world.specs.Performed.{Performed};

use crate::landing::land;
use crate::running::Running;
use memory_count::{Memory, NoMemory};
use rpc_base::{NodeId, SessionNo};
use rpc_outside::MemRecorder;

/// `rate`: sets the rate of the node's session, in bytes per millisecond. That the session isn't
/// live is noted, and no error.
pub fn rate_on(
    memory: &mut Memory,
    stage: &mut Running,
    rec: &mut MemRecorder,
    node: NodeId,
    session: SessionNo,
    rate: u32,
) -> Result<(), NoMemory>
    requires node { node < length stage.old.ends }
    requires numbered { IsNumbered stage.old }
    ensures performed { OnOk result
        (Performed (AtNode (SetsRate session rate) node)
        stage.old stage.new rec.old.facts.items rec.new.facts.items) }
    ensures cause { HasReason memory.old memory.new result }
{
    let before = rec.facts().len();
    let rating = stage.nodes.at_mut(usize::from(node.0));
    let _answer = rating.set_rate(session, rate, rec);
    land(memory, stage, rec, before)?;
    Ok(())
}
