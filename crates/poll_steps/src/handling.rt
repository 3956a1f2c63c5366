//! The third step of a poll: the packets of the receive ring are handled.
ghost use Rattle.std.specs.Prelude.{◌≡◌, ◌<◌, ◌↔◌, ℕ, IfOk, IsTrue, Some, slice_get};
ghost use Rattle.memory_count.specs.Faults.{HasCause};
ghost use Rattle.rpc_laws.specs.PollOrder.{Handles, HandlesAll, NoMoreToHandle};
ghost use Rattle.rpc_laws.specs.Queues.{replies};
ghost use Rattle.rpc_outside.specs.PlainAnswer.{plain_mode};
ghost use Rattle.node_rules.specs.SingleFacts.{at_clock};
ghost use Rattle.poll_steps.specs.Handling.{HandlesNext};
ghost use Rattle.poll_steps.specs.Steps.{IsStep};

use crate::finishing::apply_all;
use memory_count::{Memory, NoMemory};
use node_tables::{body, count_replies, read_message};
use rpc_base::Fact;
use rpc_laws::{Arrival, Lists};
use rule_facts::handled;

// Whether no more packets are handled: the ring is empty, or as many replies are queued as it is
// long.
fn is_over(lists: &Lists) -> bool
    ensures { (clock : ℕ) → IsTrue result ↔ NoMoreToHandle (at_clock clock lists.now) }
{
    if lists.ring.is_empty() {
        return true;
    }
    lists.room as usize <= count_replies(&lists.queued)
}

// How many of the facts handle the packet at the front of the ring, while there is room for a
// reply.
fn front_handled(
    memory: &mut Memory,
    lists: &Lists,
    front: &Arrival,
    facts: &[Fact],
) -> Result<Option<usize>, NoMemory>
    requires room { replies lists.now.queued < lists.now.room }
    requires front { slice_get lists.now.ring 0 ≡ Some front.now }
    ensures next { IfOk result (HandlesNext lists.now facts.now) }
    ensures cause { HasCause memory.old memory.new result }
{
    let bytes = front.bytes.bytes();
    let Some(head) = read_message(bytes) else {
        return Ok(None);
    };
    let count = handled(memory, lists, front.peer, &head, body(bytes), facts)?;
    Ok(count)
}

// How many of the facts handle the next packet.
fn next_handled(
    memory: &mut Memory,
    lists: &Lists,
    facts: &[Fact],
) -> Result<Option<usize>, NoMemory>
    ensures next { IfOk result (HandlesNext lists.now facts.now) }
    ensures cause { HasCause memory.old memory.new result }
{
    if lists.ring.is_empty() {
        return Ok(None);
    }
    if lists.room as usize <= count_replies(&lists.queued) {
        return Ok(None);
    }
    let count = front_handled(memory, lists, lists.ring.first(), facts)?;
    Ok(count)
}

// How many of the facts do, and the lists are changed as they do.
fn handle_one(
    memory: &mut Memory,
    lists: &mut Lists,
    clock: u64,
    facts: &[Fact],
) -> Result<Option<usize>, NoMemory>
    ensures step { IfOk result (IsStep (Handles plain_mode) (at_clock clock lists.old) facts.now
        (at_clock clock lists.new)) }
    ensures cause { HasCause memory.old memory.new result }
{
    let Some(count) = next_handled(memory, lists, facts)? else {
        return Ok(None);
    };
    apply_all(memory, lists, clock, &facts[..count])?;
    Ok(Some(count))
}

/// How many of the facts handle the packets of the receive ring in a poll at this clock, in
/// microseconds, one after another in order of arrival, until the ring is empty or as many replies
/// are queued as it is long. Whether memory was wanting, and what a handler answered, is told by
/// the facts. `None` comes exactly where no front of the facts does so. Changes the lists as these
/// facts do; where the answer is `None`, or memory is wanting, what they hold isn't told.
pub fn handle_all(
    memory: &mut Memory,
    lists: &mut Lists,
    clock: u64,
    facts: &[Fact],
) -> Result<Option<usize>, NoMemory>
    ensures step { IfOk result (IsStep (HandlesAll plain_mode) (at_clock clock lists.old) facts.now
        (at_clock clock lists.new)) }
    ensures cause { HasCause memory.old memory.new result }
{
    let mut count = 0;
    'packets: while !is_over(lists) {
        let Some(more) = handle_one(memory, lists, clock, &facts[count..])? else {
            return Ok(None);
        };
        count += more;
    }
    Ok(Some(count))
}
