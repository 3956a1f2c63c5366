//! The sixth step of a poll: packets of the queue are sent.
ghost use Rattle.std.specs.Prelude.{◌≡◌, ◌∷◌, [], ◌↔◌, IfOk, IsTrue, drop};
ghost use Rattle.memory_count.specs.Faults.{HasCause};
ghost use Rattle.rpc_laws.specs.NodeLists.{after};
ghost use Rattle.rpc_laws.specs.PollOrder.{Sends};
ghost use Rattle.node_rules.specs.SingleFacts.{at_clock};
ghost use Rattle.poll_steps.specs.Steps.{AreSteps, Stops, begins_with, is_sent};

use crate::facts::fact_at;
use crate::packets::is_sent as is_sent_as_queued;
use memory_count::{Memory, NoMemory};
use node_tables::{apply, is_due};
use rpc_base::{Event, Fact};
use rpc_laws::Lists;

fn is_sent(event: &Event) -> bool
    ensures { result ≡ is_sent event.now }
{
    matches!(event, Event::Sent { .. })
}

// Whether a packet was sent at a place.
fn sent_at(facts: &[Fact], place: usize) -> bool
    ensures { result ≡ begins_with is_sent (drop place facts.now) }
{
    if facts.len() <= place {
        return false;
    }
    is_sent(&fact_at(facts, place).event)
}

// Whether a fact says that the front of the queue was sent, which is ready or due at this clock.
fn is_next_sent(lists: &Lists, clock: u64, fact: &Fact) -> bool
    ensures { IsTrue result ↔ Sends (at_clock clock lists.now) (fact.now ∷ [])
        (at_clock clock (after clock lists.now fact.now)) }
{
    if lists.queued.is_empty() {
        return false;
    }
    let entry = lists.queued.first();
    if !is_due(entry.due, clock) {
        return false;
    }
    is_sent_as_queued(fact, lists, entry)
}

/// How many of the facts send packets of the queue in a poll at this clock, in microseconds, up to
/// the first fact that is no `sent`: each the front of the queue, once it is ready or due, to its
/// peer, with the header and the body of its packet. `None` comes exactly where one of the facts up
/// to there isn't that. Changes the lists as these facts do; where the answer is `None`, or memory
/// is wanting, what they hold isn't told.
pub fn send_packets(
    memory: &mut Memory,
    lists: &mut Lists,
    clock: u64,
    facts: &[Fact],
) -> Result<Option<usize>, NoMemory>
    ensures step { IfOk result (AreSteps Sends (Stops is_sent) (at_clock clock lists.old) facts.now
        (at_clock clock lists.new)) }
    ensures cause { HasCause memory.old memory.new result }
{
    let mut count = 0;
    'packets: while sent_at(facts, count) {
        let fact = fact_at(facts, count);
        if !is_next_sent(lists, clock, fact) {
            return Ok(None);
        }
        apply(memory, lists, clock, fact)?;
        count += 1;
    }
    Ok(Some(count))
}
