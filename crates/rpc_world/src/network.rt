//! The copies in flight, and the facts of the network.
ghost use Rattle.std.specs.Prelude.{◌≡◌, ◌++◌, ◌∷◌, [], false, OnOk};
ghost use Rattle.memory_count.specs.Faults.{HasReason};
ghost use Rattle.rpc_laws.specs.Facts.{of_net};
ghost use Rattle.rpc_laws.specs.InFlight.{flight_after, flight_after_all, flight_after_net};
ghost use Rattle.rpc_laws.specs.InFlight.{flight_after_node};
ghost use Rattle.sim_script.specs.FollowsScript.{OfNet, is_wanting};
ghost use Rattle.rpc_world.specs.Performed.{Performed};

use crate::landing::check_whole;
use crate::running::Running;
use memory_count::{Memory, NoMemory};
use network_model::Net;
use rpc_base::{Event, Fact, NodeId, Who};
use rpc_outside::{MemRecorder, Recorder};

/// Notes a fact of the network.
pub fn note_of_net(
    memory: &mut Memory,
    rec: &mut MemRecorder,
    event: &Event,
) -> Result<(), NoMemory>
    ensures noted { OnOk result
        (rec.new.facts.items ≡ rec.old.facts.items ++ of_net event.now ∷ []) }
    ensures cause { HasReason memory.old memory.new result }
{
    rec.note(Who::Net, *event, &[], &[]);
    check_whole(memory, rec)
}

fn send_of(memory: &mut Memory, flight: &mut Net, from: NodeId, fact: &Fact) -> Result<(), NoMemory>
    ensures sent { OnOk result
        (flight.new ≡ flight_after_node from fact.now.event fact.now.first fact.now.second
        flight.old) }
    ensures cause { HasReason memory.old memory.new result }
{
    match &fact.event {
        Event::Sent { peer, .. } => {
            flight.send(
                memory,
                from,
                NodeId(peer.0),
                fact.first.bytes(),
                fact.second.bytes(),
            )
        }
        _ => Ok(()),
    }
}

fn launch_one(memory: &mut Memory, flight: &mut Net, fact: &Fact) -> Result<(), NoMemory>
    ensures launched { OnOk result (flight.new ≡ flight_after flight.old fact.now) }
    ensures cause { HasReason memory.old memory.new result }
{
    match &fact.who {
        Who::Node(from) => send_of(memory, flight, *from, fact),
        Who::Net => change(memory, flight, &fact.event),
    }
}

/// The copies in flight after an event of the network.
pub fn change(memory: &mut Memory, flight: &mut Net, event: &Event) -> Result<(), NoMemory>
    ensures changed { OnOk result (flight.new ≡ flight_after_net event.now flight.old) }
    ensures cause { HasReason memory.old memory.new result }
{
    match event {
        Event::Repeated { copy } => {
            flight.repeat(memory, *copy)?;
        }
        Event::Carried { copy } => {
            flight.carry(*copy);
        }
        Event::Lost { copy } => {
            flight.lose(*copy);
        }
        _ => {}
    }
    Ok(())
}

/// What the facts say was sent goes into flight.
pub fn launch(memory: &mut Memory, flight: &mut Net, facts: &[Fact]) -> Result<(), NoMemory>
    ensures launched { OnOk result (flight.new ≡ flight_after_all flight.old facts.now) }
    ensures cause { HasReason memory.old memory.new result }
{
    for fact in facts {
        launch_one(memory, flight, fact)?;
    }
    Ok(())
}

/// The network does something that only changes the copies in flight.
pub fn perform_net(
    memory: &mut Memory,
    stage: &mut Running,
    rec: &mut MemRecorder,
    event: &Event,
) -> Result<(), NoMemory>
    requires { is_wanting event.now ≡ false }
    ensures performed { OnOk result
        (Performed (OfNet event.now) stage.old stage.new rec.old.facts.items rec.new.facts.items) }
    ensures cause { HasReason memory.old memory.new result }
{
    change(memory, &mut stage.flight, event)?;
    note_of_net(memory, rec, event)?;
    Ok(())
}
