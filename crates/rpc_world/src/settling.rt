//! `settle K`: rounds, until nothing happens any more.
ghost use Rattle.std.specs.Prelude.{◌≡◌, ◌≤◌, length, IfOk, OnOk};
ghost use Rattle.std.specs.List.{list_all};
ghost use Rattle.memory_count.specs.Faults.{HasReason};
ghost use Rattle.sim_script.specs.FollowsScript.{Carries, PollsFirst, Settles, Times};
ghost use Rattle.sim_script.specs.FollowsScript.{WorksAndPolls, WorksFirst, is_polled};
ghost use Rattle.rpc_world.specs.Performed.{Performed, MakesRound};
ghost use Rattle.rpc_world.specs.Before.{IsNumbered};

use crate::running::Running;
use crate::stepping::{carry_first, poll_node};
use crate::working::work_node;
use memory_count::{Memory, NoMemory};
use rpc_base::{Event, Fact, NodeId};
use rpc_outside::MemRecorder;

// Delivering a copy sends nothing, so there is a copy 0 in each turn.
fn carry_all(
    memory: &mut Memory,
    stage: &mut Running,
    rec: &mut MemRecorder,
) -> Result<(), NoMemory>
    requires numbered { IsNumbered stage.old }
    ensures performed { OnOk result
        (Performed (Times (Carries 0) (length stage.old.flight))
        stage.old stage.new rec.old.facts.items rec.new.facts.items) }
    ensures cause { HasReason memory.old memory.new result }
{
    let count = stage.flight.len();
    'copies: for i in 0..count {
        carry_first(memory, stage, rec)?;
    }
    Ok(())
}

// Works the jobs of the first nodes, so many of them, in order.
fn work_first(
    memory: &mut Memory,
    stage: &mut Running,
    rec: &mut MemRecorder,
    count: u8,
) -> Result<(), NoMemory>
    requires count { count ≤ length stage.old.ends }
    requires numbered { IsNumbered stage.old }
    ensures performed { OnOk result
        (Performed (WorksFirst count) stage.old stage.new rec.old.facts.items
        rec.new.facts.items) }
    ensures cause { HasReason memory.old memory.new result }
{
    'workers: for i in 0..count {
        work_node(memory, stage, rec, NodeId(i))?;
    }
    Ok(())
}

// Polls the first nodes, so many of them, in order.
fn poll_first(
    memory: &mut Memory,
    stage: &mut Running,
    rec: &mut MemRecorder,
    count: u8,
) -> Result<(), NoMemory>
    requires count { count ≤ length stage.old.ends }
    requires numbered { IsNumbered stage.old }
    ensures performed { OnOk result
        (Performed (PollsFirst count) stage.old stage.new rec.old.facts.items
        rec.new.facts.items) }
    ensures cause { HasReason memory.old memory.new result }
{
    'nodes: for i in 0..count {
        poll_node(memory, stage, rec, NodeId(i))?;
    }
    Ok(())
}

// Works the jobs of each node, and then polls each.
fn work_and_poll(
    memory: &mut Memory,
    stage: &mut Running,
    rec: &mut MemRecorder,
) -> Result<(), NoMemory>
    requires numbered { IsNumbered stage.old }
    ensures performed { OnOk result
        (Performed (WorksAndPolls (length stage.old.ends))
        stage.old stage.new rec.old.facts.items rec.new.facts.items) }
    ensures cause { HasReason memory.old memory.new result }
{
    let count = stage.nodes.len() as u8;
    work_first(memory, stage, rec, count)?;
    poll_first(memory, stage, rec, count)?;
    Ok(())
}

fn is_polled(event: &Event) -> bool
    ensures { result ≡ is_polled event.now }
{
    match event {
        Event::Polled { .. } => true,
        _ => false,
    }
}

fn are_polled(facts: &[Fact]) -> bool
    ensures { result ≡ list_all (λ f. is_polled f.event) facts.now }
{
    facts.iter().all(|fact| is_polled(&fact.event))
}

// Carries each copy that is in flight, works the jobs of each node, polls each, and tells whether
// there was nothing but polls.
fn make_round(
    memory: &mut Memory,
    stage: &mut Running,
    rec: &mut MemRecorder,
) -> Result<bool, NoMemory>
    requires numbered { IsNumbered stage.old }
    ensures made { IfOk result
        (λ is_quiet. MakesRound is_quiet stage.old stage.new rec.old.facts.items
        rec.new.facts.items) }
    ensures cause { HasReason memory.old memory.new result }
{
    let before = rec.facts().len();
    carry_all(memory, stage, rec)?;
    work_and_poll(memory, stage, rec)?;
    Ok(are_polled(&rec.facts()[before..]))
}

/// `settle K`: makes at most that many rounds, and none after one in which there was nothing but
/// polls.
pub fn settle(
    memory: &mut Memory,
    stage: &mut Running,
    rec: &mut MemRecorder,
    rounds: u32,
) -> Result<(), NoMemory>
    requires numbered { IsNumbered stage.old }
    ensures performed { OnOk result
        (Performed (Settles rounds) stage.old stage.new rec.old.facts.items
        rec.new.facts.items) }
    ensures cause { HasReason memory.old memory.new result }
{
    'rounds: for i in 0..rounds {
        if make_round(memory, stage, rec)? {
            return Ok(());
        }
    }
    Ok(())
}
