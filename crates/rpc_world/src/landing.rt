//! What a step of a node leaves: what it sent is in flight, and the jobs that it worked aren't
//! finished.
ghost use Rattle.std.specs.Prelude.{◌≡◌, ◌≤◌, ◌==◌, ◌++◌, true, length, drop, map, OnOk};
ghost use Rattle.memory_count.specs.Faults.{HasReason};
ghost use Rattle.network_model.specs.Sending.{copy_from};
ghost use Rattle.rpc_laws.specs.InFlight.{flight_after_all};
ghost use Rattle.rpc_laws.specs.Working.{worked_after_all};
ghost use Rattle.std.specs.List.{list_any};
ghost use Rattle.sim_script.specs.FollowsScript.{is_wanting};

use crate::finished::keep;
use crate::network::launch;
use crate::running::Running;
use memory_count::{Memory, NoMemory};
use network_model::NodeLink;
use rpc_base::{DropReason, Event, Fact, NodeId};
use rpc_outside::MemRecorder;

/// Ends a run where there was no memory for a fact: the recorder's refusals count.
pub fn check_whole(memory: &mut Memory, rec: &MemRecorder) -> Result<(), NoMemory>
    ensures whole { OnOk result ((rec.now.memory == 0) ≡ true) }
    ensures cause { HasReason memory.old memory.new result }
{
    if rec.whole() {
        return Ok(());
    }
    memory.add(rec.memory());
    Err(NoMemory)
}

fn is_wanting(event: &Event) -> bool
    ensures { result ≡ is_wanting event.now }
{
    match event {
        Event::Unsent { .. } => true,
        Event::Starved { .. } => true,
        Event::Dropped {
            reason: DropReason::NoMemory,
        } => true,
        _ => false,
    }
}

fn tell_of_want(facts: &[Fact]) -> bool
    ensures { result ≡ list_any (λ f. is_wanting f.event) facts.now }
{
    facts.iter().any(|fact| is_wanting(&fact.event))
}

/// Whether the facts since the first `before` tell that something was wanting.
pub fn is_wanted(rec: &MemRecorder, before: usize) -> bool
    requires { before ≤ length rec.now.facts.items }
    ensures { result ≡ list_any (λ f. is_wanting f.event) (drop before rec.now.facts.items) }
{
    tell_of_want(&rec.facts()[before..])
}

/// What the facts since the first `before` say was sent goes into flight, and the jobs that they
/// say were worked wait to be finished. `NoMemory` comes also where a fact was lost.
pub fn land(
    memory: &mut Memory,
    stage: &mut Running,
    rec: &MemRecorder,
    before: usize,
) -> Result<(), NoMemory>
    requires { (rec.now.memory == 0) ≡ true → before ≤ length rec.now.facts.items }
    ensures whole { OnOk result ((rec.now.memory == 0) ≡ true) }
    ensures stage { OnOk result (stage.new ≡ record stage.old {
      flight = flight_after_all stage.old.flight (drop before rec.now.facts.items);
      worked = worked_after_all stage.old.worked (drop before rec.now.facts.items);
    }) }
    ensures cause { HasReason memory.old memory.new result }
{
    check_whole(memory, rec)?;
    launch(memory, &mut stage.flight, &rec.facts()[before..])?;
    keep(memory, &mut stage.worked, &rec.facts()[before..])?;
    Ok(())
}

/// What a poll of the node leaves: what it sent, by its link, is in flight, and the jobs that the
/// facts since the first `before` say were worked or finished are kept.
pub fn land_sent(
    memory: &mut Memory,
    stage: &mut Running,
    rec: &MemRecorder,
    before: usize,
    node: NodeId,
    link: NodeLink,
) -> Result<(), NoMemory>
    requires { before ≤ length rec.now.facts.items }
    ensures stage { OnOk result (stage.new ≡ record stage.old {
      flight = stage.old.flight ++ map (copy_from node) link.sent;
      worked = worked_after_all stage.old.worked (drop before rec.now.facts.items);
    }) }
    ensures cause { HasReason memory.old memory.new result }
{
    link.send_into(memory, node, &mut stage.flight)?;
    keep(memory, &mut stage.worked, &rec.facts()[before..])?;
    Ok(())
}
