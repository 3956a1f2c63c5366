//! The last step of a poll: the fact that ends it.
ghost use Rattle.std.specs.Prelude.{◌≡◌, IfOk};
ghost use Rattle.memory_count.specs.Faults.{HasCause};
ghost use Rattle.rpc_laws.specs.PollOrder.{Closes};
ghost use Rattle.node_rules.specs.SingleFacts.{at_clock};
ghost use Rattle.poll_steps.specs.Steps.{IsStep};

use crate::facts::fact_at;
use memory_count::{Memory, NoMemory};
use node_tables::apply;
use rpc_base::Fact;
use rpc_laws::Lists;
use rule_facts::is_end;

/// How many of the facts end a poll at this clock, in microseconds: one, or `None` exactly where
/// the first fact doesn't. Changes the lists as it does; where the answer is `None`, or memory is
/// wanting, what they hold isn't told.
pub fn end_poll(
    memory: &mut Memory,
    lists: &mut Lists,
    clock: u64,
    facts: &[Fact],
) -> Result<Option<usize>, NoMemory>
    ensures step { IfOk result (IsStep Closes (at_clock clock lists.old) facts.now
        (at_clock clock lists.new)) }
    ensures cause { HasCause memory.old memory.new result }
{
    if facts.is_empty() {
        return Ok(None);
    }
    let fact = fact_at(facts, 0);
    if !is_end(lists, clock, fact) {
        return Ok(None);
    }
    apply(memory, lists, clock, fact)?;
    Ok(Some(1))
}
