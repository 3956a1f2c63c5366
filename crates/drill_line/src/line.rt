//! The line that a drill writes.
ghost use Rattle.std.specs.Prelude.{◌≡◌, ◌++◌, IfOk, OnOk};
ghost use Rattle.std.specs.Fmt.{decimal};
ghost use Rattle.std.specs.String.{string_bytes};
ghost use Rattle.drill_line.specs.DrillLine.{count_of, counts_of, is_of, line_of};
ghost use Rattle.memory_count.specs.Faults.{HasCause};

use memory_count::{Memory, NoMemory};
use rpc_base::{Event, Fact};

/// What a drill counts beside all facts.
#[derive(Clone, Copy, Debug, PartialEq, Eq)]
pub enum Kind {
    /// A handler ran.
    Ran,
    /// A call ended well.
    Ok,
    /// A call was rolled back.
    Rolled,
    /// A packet was dropped.
    Dropped,
    /// A datagram found no room.
    Overflowed,
}

/// Tells whether a fact is of a kind.
#[tactic(auto, unfolding(crate::specs::DrillLine::is_of))]
fn is_of(kind: Kind, fact: &Fact) -> bool
    ensures { result ≡ is_of kind fact.now.event }
{
    match kind {
        Kind::Ran => matches!(fact.event, Event::Ran { .. }),
        Kind::Ok => matches!(fact.event, Event::DoneOk { .. }),
        Kind::Rolled => matches!(fact.event, Event::Rolled { .. }),
        Kind::Dropped => matches!(fact.event, Event::Dropped { .. }),
        Kind::Overflowed => matches!(fact.event, Event::Overflowed { .. }),
    }
}

/// How many facts are of a kind.
fn count_of(kind: Kind, facts: &[Fact]) -> usize
    ensures { result ≡ count_of kind facts.now }
{
    facts.iter().filter(|fact| is_of(kind, fact)).count()
}

/// What a drill counts in its history.
#[derive(Clone, Copy, Debug, PartialEq, Eq)]
pub struct Counts {
    pub ran: usize,
    pub ok: usize,
    pub facts: usize,
    pub rolled: usize,
    pub dropped: usize,
    pub overflowed: usize,
}

/// Counts the facts of a history.
pub fn count(facts: &[Fact]) -> Counts
    ensures { result ≡ counts_of facts.now }
{
    Counts {
        ran: count_of(Kind::Ran, facts),
        ok: count_of(Kind::Ok, facts),
        facts: facts.len(),
        rolled: count_of(Kind::Rolled, facts),
        dropped: count_of(Kind::Dropped, facts),
        overflowed: count_of(Kind::Overflowed, facts),
    }
}

/// Puts a word and a number at the end of a text.
fn add(memory: &mut Memory, text: &mut String, word: &str, number: u64) -> Result<(), NoMemory>
    ensures added { OnOk result (string_bytes text.new ≡ string_bytes text.old ++ word.now
        ++ decimal number) }
    ensures cause { HasCause memory.old memory.new result }
{
    let pushed = text.push_str(word);
    memory.of(pushed)?;
    let written = write!(text, "{number}");
    memory.of(written)
}

/// The line that tells of a drill.
#[tactic(auto, unfolding(crate::specs::DrillLine::line_of))]
pub fn drill_line(
    memory: &mut Memory,
    seed: u64,
    calls: u32,
    counts: Counts,
) -> Result<String, NoMemory>
    ensures line { IfOk result (λ line. string_bytes line ≡ line_of seed calls counts) }
    ensures cause { HasCause memory.old memory.new result }
{
    let mut line = String::new(memory.alloc());
    add(memory, &mut line, "drill seed ", seed)?;
    add(memory, &mut line, " calls ", u64::from(calls))?;
    add(memory, &mut line, " ran ", counts.ran as u64)?;
    add(memory, &mut line, " ok ", counts.ok as u64)?;
    add(memory, &mut line, " facts ", counts.facts as u64)?;
    add(memory, &mut line, " rolled ", counts.rolled as u64)?;
    add(memory, &mut line, " dropped ", counts.dropped as u64)?;
    add(memory, &mut line, " overflowed ", counts.overflowed as u64)?;
    let ended = line.push_str("\n");
    memory.of(ended)?;
    Ok(line)
}
