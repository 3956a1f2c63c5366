//! Steps of the nodes: a poll, and a copy that is taken out of flight and delivered.
ghost use Rattle.std.specs.Prelude.{◌≡◌, ◌<◌, length, OnOk};
ghost use Rattle.memory_count.specs.Faults.{HasReason};
ghost use Rattle.rpc_laws.specs.Deliveries.{Delivers};
ghost use Rattle.sim_script.specs.FollowsScript.{AtNode, Arrives, Carries, PollsNode};
ghost use Rattle.rpc_world.specs.Performed.{Performed};
ghost use Rattle.rpc_world.specs.Before.{IsNumbered};

use crate::dropping::Dropping;
use crate::landing::{check_whole, is_wanted, land, land_sent};
use crate::network::{note_of_net, perform_net};
use crate::running::Running;
use memory_count::{Memory, NoMemory};
use network_model::{Copy, NodeLink};
use rpc_base::{Event, NodeId, Peer};
use rpc_outside::MemRecorder;

/// `poll A`: polls the node at the world's clock.
pub fn poll_node(
    memory: &mut Memory,
    stage: &mut Running,
    rec: &mut MemRecorder,
    node: NodeId,
) -> Result<(), NoMemory>
    requires node { node < length stage.old.ends }
    requires numbered { IsNumbered stage.old }
    ensures performed { OnOk result
        (Performed (PollsNode node) stage.old stage.new rec.old.facts.items
        rec.new.facts.items) }
    ensures cause { HasReason memory.old memory.new result }
{
    let before = rec.facts().len();
    let now = stage.clock;
    let mut link = NodeLink::new(memory.alloc());
    let polled = stage.nodes.at_mut(usize::from(node.0));
    polled.sound();
    // The link fails only where its memory was refused.
    let Ok(_turn) = polled.poll(memory, now, &mut link, &mut Dropping, rec) else {
        memory.add(link.memory());
        return Err(NoMemory);
    };
    check_whole(memory, rec)?;
    // The poll counted the refusal of which such a fact tells.
    if is_wanted(rec, before) {
        return Err(NoMemory);
    }
    land_sent(memory, stage, rec, before, node, link)?;
    Ok(())
}

fn deliver_at(
    memory: &mut Memory,
    stage: &mut Running,
    rec: &mut MemRecorder,
    node: NodeId,
    sender: NodeId,
    bytes: &[u8],
) -> Result<(), NoMemory>
    requires node { node < length stage.old.ends }
    requires sender { sender < length stage.old.ends }
    requires numbered { IsNumbered stage.old }
    ensures performed { OnOk result
        (Performed (AtNode (Delivers sender bytes.now) node)
        stage.old stage.new rec.old.facts.items rec.new.facts.items) }
    ensures cause { HasReason memory.old memory.new result }
{
    let before = rec.facts().len();
    let receiver = stage.nodes.at_mut(usize::from(node.0));
    receiver.deliver(Peer(sender.0), bytes, rec);
    land(memory, stage, rec, before)?;
    Ok(())
}

fn deliver_to(
    memory: &mut Memory,
    stage: &mut Running,
    rec: &mut MemRecorder,
    copy: &Copy,
) -> Result<(), NoMemory>
    requires among { (copy.now.from < length stage.old.ends)
        × (copy.now.to < length stage.old.ends) }
    requires numbered { IsNumbered stage.old }
    ensures performed { OnOk result
        (Performed (AtNode (Delivers copy.now.from copy.now.bytes) copy.now.to)
        stage.old stage.new rec.old.facts.items rec.new.facts.items) }
    ensures cause { HasReason memory.old memory.new result }
{
    deliver_at(memory, stage, rec, copy.to, copy.from, copy.bytes.bytes())
}

/// `arrive I`: takes the copy out of flight and delivers it.
pub fn arrive(
    memory: &mut Memory,
    stage: &mut Running,
    rec: &mut MemRecorder,
    copy: u32,
) -> Result<(), NoMemory>
    requires numbered { IsNumbered stage.old }
    ensures performed { OnOk result
        (Performed (Arrives copy) stage.old stage.new rec.old.facts.items rec.new.facts.items) }
    ensures cause { HasReason memory.old memory.new result }
{
    let Some(taken) = stage.flight.carry(copy) else {
        perform_net(memory, stage, rec, &Event::Missed { number: copy })?;
        return Ok(());
    };
    note_of_net(memory, rec, &Event::Carried { copy })?;
    deliver_to(memory, stage, rec, &taken)?;
    Ok(())
}

/// Carries copy 0, which is in flight.
pub fn carry_first(
    memory: &mut Memory,
    stage: &mut Running,
    rec: &mut MemRecorder,
) -> Result<(), NoMemory>
    requires some { 0 < length stage.old.flight }
    requires numbered { IsNumbered stage.old }
    ensures performed { OnOk result
        (Performed (Carries 0) stage.old stage.new rec.old.facts.items rec.new.facts.items) }
    ensures cause { HasReason memory.old memory.new result }
{
    let Some(taken) = stage.flight.carry(0) else {
        unreachable!();
    };
    note_of_net(memory, rec, &Event::Carried { copy: 0 })?;
    deliver_to(memory, stage, rec, &taken)?;
    Ok(())
}
