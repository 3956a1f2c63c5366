//! The fifth step of a poll: the waiting calls of the client sessions begin, and their packets are
//! posted.
ghost use Rattle.std.specs.Prelude.{◌≡◌, IfOk};
ghost use Rattle.memory_count.specs.Faults.{HasCause};
ghost use Rattle.rpc_laws.specs.PollOrder.{PostsAll, Serves};
ghost use Rattle.rpc_laws.specs.Posting.{next_begun, next_posted};
ghost use Rattle.rpc_laws.specs.Steps.{NotesAll};
ghost use Rattle.node_rules.specs.SingleFacts.{at_clock};
ghost use Rattle.poll_steps.specs.Steps.{IsStep, has_next};

use crate::facts::fact_at;
use crate::resting::rests;
use memory_count::{Memory, NoMemory};
use node_rules::{next_begun, next_posted};
use node_tables::apply;
use rpc_base::Fact;
use rpc_laws::Lists;
use rule_facts::{is_next_begun, is_next_posted};

// Whether a call of client session `i` begins next.
fn begins(lists: &Lists, i: usize) -> bool
    ensures { result ≡ has_next (next_begun i lists.now) }
{
    next_begun(lists, i).is_some()
}

// Whether client session `i` posts a packet next.
fn posts(lists: &Lists, i: usize) -> bool
    ensures { result ≡ has_next (next_posted i lists.now) }
{
    next_posted(lists, i).is_some()
}

// The waiting calls of client session `i` begin, as many as there are free slots.
fn begin_calls(
    memory: &mut Memory,
    lists: &mut Lists,
    clock: u64,
    i: usize,
    facts: &[Fact],
) -> Result<Option<usize>, NoMemory>
    ensures step { IfOk result (IsStep (NotesAll (next_begun i)) (at_clock clock lists.old)
        facts.now (at_clock clock lists.new)) }
    ensures cause { HasCause memory.old memory.new result }
{
    let mut count = 0;
    'calls: while begins(lists, i) {
        if facts.len() <= count {
            return Ok(None);
        }
        let fact = fact_at(facts, count);
        if !is_next_begun(lists, i, fact) {
            return Ok(None);
        }
        apply(memory, lists, clock, fact)?;
        count += 1;
    }
    Ok(Some(count))
}

// The packets of client session `i` are posted, as many as there are free credits.
fn post_packets(
    memory: &mut Memory,
    lists: &mut Lists,
    clock: u64,
    i: usize,
    facts: &[Fact],
) -> Result<Option<usize>, NoMemory>
    ensures step { IfOk result (IsStep (NotesAll (next_posted i)) (at_clock clock lists.old)
        facts.now (at_clock clock lists.new)) }
    ensures cause { HasCause memory.old memory.new result }
{
    let mut count = 0;
    'packets: while posts(lists, i) {
        if facts.len() <= count {
            return Ok(None);
        }
        let fact = fact_at(facts, count);
        if !is_next_posted(lists, i, fact) {
            return Ok(None);
        }
        apply(memory, lists, clock, fact)?;
        count += 1;
    }
    Ok(Some(count))
}

// Both, of one session.
fn serve(
    memory: &mut Memory,
    lists: &mut Lists,
    clock: u64,
    i: usize,
    facts: &[Fact],
) -> Result<Option<usize>, NoMemory>
    ensures step { IfOk result (IsStep (Serves i) (at_clock clock lists.old) facts.now
        (at_clock clock lists.new)) }
    ensures cause { HasCause memory.old memory.new result }
{
    if rests(lists, i) {
        return Ok(Some(0));
    }
    let Some(begun) = begin_calls(memory, lists, clock, i, facts)? else {
        return Ok(None);
    };
    let Some(posted) = post_packets(memory, lists, clock, i, &facts[begun..])? else {
        return Ok(None);
    };
    Ok(Some(begun + posted))
}

/// How many of the facts are those of a poll's posting at this clock, in microseconds: the client
/// sessions are visited in the order of their numbers, and of each the waiting calls begin and then
/// its packets are posted. `None` comes exactly where no front of the facts is that. Changes the
/// lists as these facts do; where the answer is `None`, or memory is wanting, what they hold isn't
/// told.
pub fn post_all(
    memory: &mut Memory,
    lists: &mut Lists,
    clock: u64,
    facts: &[Fact],
) -> Result<Option<usize>, NoMemory>
    ensures step { IfOk result (IsStep PostsAll (at_clock clock lists.old) facts.now
        (at_clock clock lists.new)) }
    ensures cause { HasCause memory.old memory.new result }
{
    let sessions = lists.clients.len();
    let mut count = 0;
    'sessions: for i in 0..sessions {
        let Some(more) = serve(memory, lists, clock, i, &facts[count..])? else {
            return Ok(None);
        };
        count += more;
    }
    Ok(Some(count))
}
