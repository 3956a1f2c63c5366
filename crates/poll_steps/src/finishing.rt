//! The first step of a poll: background jobs that are finished.
ghost use Rattle.std.specs.Prelude.{◌≡◌, IfOk, OnOk, drop};
ghost use Rattle.memory_count.specs.Faults.{HasCause};
ghost use Rattle.rpc_laws.specs.NodeLists.{after_all};
ghost use Rattle.rpc_laws.specs.PollOrder.{FinishesOne};
ghost use Rattle.node_rules.specs.SingleFacts.{at_clock};
ghost use Rattle.poll_steps.specs.Steps.{AreSteps, IsStep, Stops, begins_with, is_ran};

use crate::facts::fact_at;
use memory_count::{Memory, NoMemory};
use node_tables::apply;
use rpc_base::{Event, Fact};
use rpc_laws::Lists;
use rule_facts::next_finished;

fn is_ran(event: &Event) -> bool
    ensures { result ≡ is_ran event.now }
{
    matches!(event, Event::Ran { .. })
}

// Whether a handler ran at a place.
fn ran_at(facts: &[Fact], place: usize) -> bool
    ensures { result ≡ begins_with is_ran (drop place facts.now) }
{
    if facts.len() <= place {
        return false;
    }
    is_ran(&fact_at(facts, place).event)
}

/// Changes the lists as the facts do. Where memory is wanting, what they hold isn't told.
pub fn apply_all(
    memory: &mut Memory,
    lists: &mut Lists,
    clock: u64,
    facts: &[Fact],
) -> Result<(), NoMemory>
    ensures lists { OnOk result (lists.new ≡ after_all clock lists.old facts.now) }
    ensures cause { HasCause memory.old memory.new result }
{
    let mut count = 0;
    'facts: while count < facts.len() {
        apply(memory, lists, clock, fact_at(facts, count))?;
        count += 1;
    }
    Ok(())
}

// How many of the facts finish the next job.
fn finish_one(
    memory: &mut Memory,
    lists: &mut Lists,
    clock: u64,
    facts: &[Fact],
) -> Result<Option<usize>, NoMemory>
    ensures step { IfOk result (IsStep FinishesOne (at_clock clock lists.old) facts.now
        (at_clock clock lists.new)) }
    ensures cause { HasCause memory.old memory.new result }
{
    let Some(told) = next_finished(lists, facts) else {
        return Ok(None);
    };
    let count = told.min(facts.len());
    apply_all(memory, lists, clock, &facts[..count])?;
    Ok(Some(count))
}

/// How many of the facts finish background jobs, one after another, at the head of a poll at this
/// clock, in microseconds, up to the first fact that is no `ran`, and no packet posted behind one.
/// `None` comes exactly where one of the facts up to there isn't that of a job that is finished.
/// Changes the lists as these facts do; where the answer is `None`, or memory is wanting, what they
/// hold isn't told.
pub fn finish_jobs(
    memory: &mut Memory,
    lists: &mut Lists,
    clock: u64,
    facts: &[Fact],
) -> Result<Option<usize>, NoMemory>
    ensures step { IfOk result (AreSteps FinishesOne (Stops is_ran) (at_clock clock lists.old)
        facts.now (at_clock clock lists.new)) }
    ensures cause { HasCause memory.old memory.new result }
{
    let mut count = 0;
    'jobs: while ran_at(facts, count) {
        let Some(more) = finish_one(memory, lists, clock, &facts[count..])? else {
            return Ok(None);
        };
        count += more;
    }
    Ok(Some(count))
}
