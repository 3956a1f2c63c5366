//! The second step of a poll: the packets of the inbox, one after another.
ghost use Rattle.std.specs.Prelude.{◌≡◌, IfOk, OnOk, is_some, length, min, take};
ghost use Rattle.memory_count.specs.Faults.{HasCause};
ghost use Rattle.rpc_laws.specs.ControlSteps.{AnswersControl, EndsAllOutdated, EndsOutdated};
ghost use Rattle.rpc_laws.specs.ControlSteps.{Hears, HearsAll, TakesControl};
ghost use Rattle.rpc_laws.specs.ControlTable.{outdated};
ghost use Rattle.rpc_laws.specs.NodeLists.{after_all};
ghost use Rattle.rpc_laws.specs.Steps.{Then};
ghost use Rattle.node_rules.specs.SingleFacts.{at_clock};
ghost use Rattle.poll_steps.specs.Steps.{IsStep};

use crate::facts::fact_at;
use crate::finishing::apply_all;
use memory_count::{Memory, NoMemory};
use node_rules::outdated;
use node_tables::{apply, read_control};
use packet_header::ControlHeader;
use rpc_base::{Fact, Peer};
use rpc_laws::Lists;
use rule_facts::{answered, is_heard, session_ended};

// Changes the lists as the first facts do, of which a rule told how many there are, and answers
// that number.
fn apply_told(
    memory: &mut Memory,
    lists: &mut Lists,
    clock: u64,
    facts: &[Fact],
    told: usize,
) -> Result<usize, NoMemory>
    ensures count { IfOk result (λ n. n ≡ min told (length facts.now)) }
    ensures applied { OnOk result (lists.new ≡ after_all clock lists.old (take told facts.now)) }
    ensures cause { HasCause memory.old memory.new result }
{
    let count = told.min(facts.len());
    apply_all(memory, lists, clock, &facts[..count])?;
    Ok(count)
}

// A packet is taken out of the inbox.
fn take_control(
    memory: &mut Memory,
    lists: &mut Lists,
    clock: u64,
    facts: &[Fact],
) -> Result<Option<usize>, NoMemory>
    ensures step { IfOk result (IsStep TakesControl (at_clock clock lists.old) facts.now
        (at_clock clock lists.new)) }
    ensures cause { HasCause memory.old memory.new result }
{
    if facts.is_empty() {
        return Ok(None);
    }
    let fact = fact_at(facts, 0);
    if !is_heard(lists, fact) {
        return Ok(None);
    }
    apply(memory, lists, clock, fact)?;
    Ok(Some(1))
}

// How many of the facts end the first server session that a control packet of this peer outdates.
fn end_one(
    memory: &mut Memory,
    lists: &mut Lists,
    clock: u64,
    peer: Peer,
    head: &ControlHeader,
    facts: &[Fact],
) -> Result<Option<usize>, NoMemory>
    ensures step { IfOk result (IsStep (EndsOutdated peer head.now) (at_clock clock lists.old)
        facts.now (at_clock clock lists.new)) }
    ensures cause { HasCause memory.old memory.new result }
{
    let Some(server) = outdated(lists, peer, head) else {
        return Ok(None);
    };
    let Some(told) = session_ended(memory, lists.me, &lists.queued, server, facts)? else {
        return Ok(None);
    };
    let count = apply_told(memory, lists, clock, facts, told)?;
    Ok(Some(count))
}

// Whether a control packet of this peer outdates a session.
fn outdates(lists: &Lists, peer: Peer, head: &ControlHeader) -> bool
    ensures { result ≡ is_some (outdated peer head.now lists.now) }
{
    outdated(lists, peer, head).is_some()
}

// The sessions that it outdates end, until none is left.
fn end_outdated(
    memory: &mut Memory,
    lists: &mut Lists,
    clock: u64,
    peer: Peer,
    head: &ControlHeader,
    facts: &[Fact],
) -> Result<Option<usize>, NoMemory>
    ensures step { IfOk result (IsStep (EndsAllOutdated peer head.now) (at_clock clock lists.old)
        facts.now (at_clock clock lists.new)) }
    ensures cause { HasCause memory.old memory.new result }
{
    let mut count = 0;
    'sessions: while outdates(lists, peer, head) {
        let Some(more) = end_one(memory, lists, clock, peer, head, &facts[count..])? else {
            return Ok(None);
        };
        count += more;
    }
    Ok(Some(count))
}

// Its row is applied, and its answer is sent.
fn answer_one(
    memory: &mut Memory,
    lists: &mut Lists,
    clock: u64,
    peer: Peer,
    head: &ControlHeader,
    facts: &[Fact],
) -> Result<Option<usize>, NoMemory>
    ensures step { IfOk result (IsStep (AnswersControl peer head.now) (at_clock clock lists.old)
        facts.now (at_clock clock lists.new)) }
    ensures cause { HasCause memory.old memory.new result }
{
    let Some(told) = answered(memory, lists, peer, head, facts)? else {
        return Ok(None);
    };
    let count = apply_told(memory, lists, clock, facts, told)?;
    Ok(Some(count))
}

// What it outdates ends, and then it is answered.
fn end_and_answer(
    memory: &mut Memory,
    lists: &mut Lists,
    clock: u64,
    peer: Peer,
    head: &ControlHeader,
    facts: &[Fact],
) -> Result<Option<usize>, NoMemory>
    ensures step { IfOk result (IsStep (Then (EndsAllOutdated peer head.now)
        (AnswersControl peer head.now)) (at_clock clock lists.old) facts.now
        (at_clock clock lists.new)) }
    ensures cause { HasCause memory.old memory.new result }
{
    let Some(ended) = end_outdated(memory, lists, clock, peer, head, facts)? else {
        return Ok(None);
    };
    let Some(said) = answer_one(memory, lists, clock, peer, head, &facts[ended..])? else {
        return Ok(None);
    };
    Ok(Some(ended + said))
}

// A control packet of this peer is taken out and handled.
fn hear_as(
    memory: &mut Memory,
    lists: &mut Lists,
    clock: u64,
    peer: Peer,
    head: &ControlHeader,
    facts: &[Fact],
) -> Result<Option<usize>, NoMemory>
    ensures step { IfOk result (IsStep (Then TakesControl (Then (EndsAllOutdated peer head.now)
        (AnswersControl peer head.now))) (at_clock clock lists.old) facts.now
        (at_clock clock lists.new)) }
    ensures cause { HasCause memory.old memory.new result }
{
    let Some(taken) = take_control(memory, lists, clock, facts)? else {
        return Ok(None);
    };
    let Some(more) = end_and_answer(memory, lists, clock, peer, head, &facts[taken..])? else {
        return Ok(None);
    };
    Ok(Some(taken + more))
}

// The front packet of the inbox is handled.
fn hear_one(
    memory: &mut Memory,
    lists: &mut Lists,
    clock: u64,
    facts: &[Fact],
) -> Result<Option<usize>, NoMemory>
    ensures step { IfOk result (IsStep Hears (at_clock clock lists.old) facts.now
        (at_clock clock lists.new)) }
    ensures cause { HasCause memory.old memory.new result }
{
    if lists.inbox.is_empty() {
        return Ok(None);
    }
    let front = lists.inbox.first();
    let peer = front.peer;
    let Some(head) = read_control(front.bytes.bytes()) else {
        return Ok(None);
    };
    let count = hear_as(memory, lists, clock, peer, &head, facts)?;
    Ok(count)
}

/// How many of the facts are those of a poll's session control at this clock, in microseconds: each
/// packet of the inbox, from the front, is taken out, the server sessions that it outdates end, its
/// row of the control rule is applied, and its answer is handed to the link. Whether memory for a
/// server session was wanting, and whether the link took an answer, is told by the facts. `None`
/// comes exactly where no front of the facts is that. Changes the lists as these facts do; where
/// the answer is `None`, or memory is wanting, what they hold isn't told.
pub fn hear_all(
    memory: &mut Memory,
    lists: &mut Lists,
    clock: u64,
    facts: &[Fact],
) -> Result<Option<usize>, NoMemory>
    ensures step { IfOk result (IsStep HearsAll (at_clock clock lists.old) facts.now
        (at_clock clock lists.new)) }
    ensures cause { HasCause memory.old memory.new result }
{
    let mut count = 0;
    'packets: while !lists.inbox.is_empty() {
        let Some(more) = hear_one(memory, lists, clock, &facts[count..])? else {
            return Ok(None);
        };
        count += more;
    }
    Ok(Some(count))
}
