//! A poll as one: its seven steps in their order, and the clock that its end tells.
ghost use Rattle.std.specs.Prelude.{◌≡◌, IfOk};
ghost use Rattle.memory_count.specs.Faults.{HasCause};
ghost use Rattle.node_rules.specs.SingleFacts.{at_clock};
ghost use Rattle.poll_steps.specs.Polling.{FromInbox, FromJobs, FromPosting, FromRing, FromSending};
ghost use Rattle.poll_steps.specs.Polling.{FromTimers, IsPoll, end_clock, last_clock};
ghost use Rattle.poll_steps.specs.Steps.{IsStep};

use crate::closing::end_poll;
use crate::facts::fact_at;
use crate::finishing::finish_jobs;
use crate::handling::handle_all;
use crate::hearing::hear_all;
use crate::posting::post_all;
use crate::sending::send_packets;
use crate::timing::time_all;
use memory_count::{Memory, NoMemory};
use rpc_base::{Event, Fact};
use rpc_laws::Lists;

// The packets of the queue are sent, and the poll ends.
fn from_sending(
    memory: &mut Memory,
    lists: &mut Lists,
    clock: u64,
    facts: &[Fact],
) -> Result<Option<usize>, NoMemory>
    ensures step { IfOk result (IsStep FromSending (at_clock clock lists.old) facts.now
        (at_clock clock lists.new)) }
    ensures cause { HasCause memory.old memory.new result }
{
    let Some(sent) = send_packets(memory, lists, clock, facts)? else {
        return Ok(None);
    };
    let Some(more) = end_poll(memory, lists, clock, &facts[sent..])? else {
        return Ok(None);
    };
    Ok(Some(sent + more))
}

// Packets are posted, and what comes then.
fn from_posting(
    memory: &mut Memory,
    lists: &mut Lists,
    clock: u64,
    facts: &[Fact],
) -> Result<Option<usize>, NoMemory>
    ensures step { IfOk result (IsStep FromPosting (at_clock clock lists.old) facts.now
        (at_clock clock lists.new)) }
    ensures cause { HasCause memory.old memory.new result }
{
    let Some(posted) = post_all(memory, lists, clock, facts)? else {
        return Ok(None);
    };
    let Some(more) = from_sending(memory, lists, clock, &facts[posted..])? else {
        return Ok(None);
    };
    Ok(Some(posted + more))
}

// The timers, and what comes then.
fn from_timers(
    memory: &mut Memory,
    lists: &mut Lists,
    clock: u64,
    facts: &[Fact],
) -> Result<Option<usize>, NoMemory>
    ensures step { IfOk result (IsStep FromTimers (at_clock clock lists.old) facts.now
        (at_clock clock lists.new)) }
    ensures cause { HasCause memory.old memory.new result }
{
    let Some(timed) = time_all(memory, lists, clock, facts)? else {
        return Ok(None);
    };
    let Some(more) = from_posting(memory, lists, clock, &facts[timed..])? else {
        return Ok(None);
    };
    Ok(Some(timed + more))
}

// The packets of the ring are handled, and what comes then.
fn from_ring(
    memory: &mut Memory,
    lists: &mut Lists,
    clock: u64,
    facts: &[Fact],
) -> Result<Option<usize>, NoMemory>
    ensures step { IfOk result (IsStep FromRing (at_clock clock lists.old) facts.now
        (at_clock clock lists.new)) }
    ensures cause { HasCause memory.old memory.new result }
{
    let Some(handled) = handle_all(memory, lists, clock, facts)? else {
        return Ok(None);
    };
    let Some(more) = from_timers(memory, lists, clock, &facts[handled..])? else {
        return Ok(None);
    };
    Ok(Some(handled + more))
}

// The packets of the inbox are handled, and what comes then.
fn from_inbox(
    memory: &mut Memory,
    lists: &mut Lists,
    clock: u64,
    facts: &[Fact],
) -> Result<Option<usize>, NoMemory>
    ensures step { IfOk result (IsStep FromInbox (at_clock clock lists.old) facts.now
        (at_clock clock lists.new)) }
    ensures cause { HasCause memory.old memory.new result }
{
    let Some(heard) = hear_all(memory, lists, clock, facts)? else {
        return Ok(None);
    };
    let Some(more) = from_ring(memory, lists, clock, &facts[heard..])? else {
        return Ok(None);
    };
    Ok(Some(heard + more))
}

// Jobs are finished, and what comes then.
fn from_jobs(
    memory: &mut Memory,
    lists: &mut Lists,
    clock: u64,
    facts: &[Fact],
) -> Result<Option<usize>, NoMemory>
    ensures step { IfOk result (IsStep FromJobs (at_clock clock lists.old) facts.now
        (at_clock clock lists.new)) }
    ensures cause { HasCause memory.old memory.new result }
{
    let Some(finished) = finish_jobs(memory, lists, clock, facts)? else {
        return Ok(None);
    };
    let Some(more) = from_inbox(memory, lists, clock, &facts[finished..])? else {
        return Ok(None);
    };
    Ok(Some(finished + more))
}

fn end_clock(event: &Event) -> Option<u64>
    ensures { result ≡ end_clock event.now }
{
    let Event::Polled { now } = event else {
        return None;
    };
    Some(*now)
}

// The clock that the last fact tells, where it ends a poll.
fn last_clock(facts: &[Fact]) -> Option<u64>
    ensures { result ≡ last_clock facts.now }
{
    if facts.is_empty() {
        return None;
    }
    end_clock(&fact_at(facts, facts.len() - 1).event)
}

/// Whether these facts, all of them, are a poll of a node of the plain service that has these lists
/// at this clock: if so at which clock it leaves the node, which its last fact tells. The clocks
/// are in microseconds. `None` comes exactly where the facts are no poll. Changes the lists as the
/// facts do; where the answer is `None`, or memory is wanting, what they hold isn't told.
pub fn poll(
    memory: &mut Memory,
    lists: &mut Lists,
    clock: u64,
    facts: &[Fact],
) -> Result<Option<u64>, NoMemory>
    ensures poll { IfOk result (IsPoll clock lists.old facts.now lists.new) }
    ensures cause { HasCause memory.old memory.new result }
{
    let Some(now) = last_clock(facts) else {
        return Ok(None);
    };
    if now < clock {
        return Ok(None);
    }
    let Some(count) = from_jobs(memory, lists, now, facts)? else {
        return Ok(None);
    };
    if count < facts.len() {
        return Ok(None);
    }
    Ok(Some(now))
}
