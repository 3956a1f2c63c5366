//! Counts in 64 bits.
ghost use Rattle.std.specs.Prelude.{◌≡◌, ◌+◌, IfOk};
ghost use Rattle.memory_count.specs.Faults.{HasCause};
ghost use Rattle.rpc_laws.specs.NodeLists.{asked_after, counts_after, one_more};
ghost use Rattle.rpc_laws.specs.Requests.{server_numbers_after};

use memory_count::{Memory, NoMemory};
use rpc_base::Event;
use rpc_laws::Counted;

/// The sum of two counts. A sum that 64 bits can't hold is want of memory, since each count is of
/// facts that are kept.
pub fn plus(memory: &mut Memory, n: u64, more: u64) -> Result<u64, NoMemory>
    ensures sum { IfOk result (λ sum. sum ≡ n + more) }
    ensures cause { HasCause memory.old memory.new result }
{
    match n.checked_add(more) {
        Some(sum) => Ok(sum),
        None => Err(memory.told()),
    }
}

/// One more than `n`. A count that 64 bits can't hold is want of memory.
pub fn one_more(memory: &mut Memory, n: u64) -> Result<u64, NoMemory>
    ensures more { IfOk result (λ m. m ≡ n + 1) }
    ensures cause { HasCause memory.old memory.new result }
{
    plus(memory, n, 1)
}

/// How many calls were accepted, after an event.
pub fn count_asked(memory: &mut Memory, asked: u64, event: &Event) -> Result<u64, NoMemory>
    ensures n { IfOk result (λ n. n ≡ asked_after event.now asked) }
    ensures cause { HasCause memory.old memory.new result }
{
    match event {
        Event::Asked { .. } => one_more(memory, asked),
        _ => Ok(asked),
    }
}

/// How many numbers of server sessions were used, after an event.
pub fn count_server_numbers(memory: &mut Memory, used: u64, event: &Event) -> Result<u64, NoMemory>
    ensures n { IfOk result (λ n. n ≡ server_numbers_after event.now used) }
    ensures cause { HasCause memory.old memory.new result }
{
    match event {
        Event::PairedServer { .. } => one_more(memory, used),
        Event::Accepted { .. } => one_more(memory, used),
        _ => Ok(used),
    }
}

// One more, where 64 bits can hold it.
fn up(n: u64) -> u64
    ensures { result ≡ one_more n }
{
    n.saturating_add(1)
}

/// How many facts of four kinds were noted, after an event.
pub fn change_counts(counts: &Counted, event: &Event) -> Counted
    ensures { result ≡ counts_after event.now counts.now }
{
    let mut counts = *counts;
    match event {
        Event::Ran { .. } => counts.ran = up(counts.ran),
        Event::Given { .. } => counts.given = up(counts.given),
        Event::Dropped { .. } => counts.dropped = up(counts.dropped),
        Event::Overflowed { .. } => counts.overflowed = up(counts.overflowed),
        _ => {}
    }
    counts
}
