//! Words, and what they ask for.
ghost use Rattle.std.specs.Prelude.{◌≡◌, map, IfOk};
ghost use Rattle.std.specs.String.{string_bytes};
ghost use Rattle.clap.specs.Words.{found_of, rows_of};
ghost use Rattle.command_line.specs.Answers.{IsInRange, Reads, lacks};
ghost use Rattle.command_line.specs.Subcommands.{rows_in, words_in};
ghost use Rattle.command_line.specs.Tasks.{drill_of_rows, load_of_rows, serve_of_rows, task_of};
ghost use Rattle.command_line.specs.Terms.{load_words, serve_words};
ghost use Rattle.command_line.specs.declared.task.Task.TheVariants.{Load, Serve};
ghost use Rattle.memory_count.specs.Faults.{HasCause, HasRisenBy};

use crate::number::{MOST_THREADS, Number};
use crate::row::{command_of, take};
use crate::subcommand::Subcommand;
use crate::task::{LoadSpec, ServeSpec, Task, WordsError};
use crate::terms::{LoadTerms, ServeTerms, load_terms, serve_terms};
use crate::text::{copied, copied_if};
use clap::ArgMatches;
use drill_maker::MOST_CALLS;
use memory_count::{Memory, NoMemory};
use packet_header::FIRST_LIFE;

/// SEED of `drill`.
pub const SEED_OF_DRILL: Number = Number {
    id: "SEED",
    shown: "SEED",
    low: 0,
    high: (1 << 63) - 1,
};
/// CALLS of `drill`.
pub const CALLS_OF_DRILL: Number = Number {
    id: "CALLS",
    shown: "CALLS",
    low: 1,
    high: MOST_CALLS as u64,
};
/// `--turns` of `serve` and `load`.
pub const TURNS: Number = Number {
    id: "turns",
    shown: "--turns",
    low: 1,
    high: u32::MAX as u64,
};
/// `--workers` of `serve`.
pub const WORKERS: Number = Number {
    id: "workers",
    shown: "--workers",
    low: 0,
    high: MOST_THREADS as u64,
};
/// `--calls` of `load`.
pub const CALLS: Number = Number {
    id: "calls",
    shown: "--calls",
    low: 1,
    high: 1_000_000,
};
/// `--size` of `load`.
pub const SIZE: Number = Number {
    id: "size",
    shown: "--size",
    low: 0,
    high: 1_048_576,
};
/// `--seed` of `load`.
pub const SEED: Number = Number {
    id: "seed",
    shown: "--seed",
    low: 0,
    high: u32::MAX as u64,
};

/// `--life` of `serve` and `load`.
pub const LIFE: Number = Number {
    id: "life",
    shown: "--life",
    low: FIRST_LIFE as u64,
    high: u32::MAX as u64,
};

/// `--timeout` of `serve` and `load`, in microseconds.
pub const TIMEOUT: Number = Number {
    id: "timeout",
    shown: "--timeout",
    low: 100,
    high: 1_000_000,
};

/// `--frame` of `load`, in bytes.
pub const FRAME: Number = Number {
    id: "frame",
    shown: "--frame",
    low: 1_088,
    high: 65_507,
};

// What the words of `drill` ask for.
fn drill_of(matches: &ArgMatches<'_>) -> Result<Task, WordsError>
    ensures value { Reads result (drill_of_rows (rows_of (found_of matches.now))) }
    ensures range { IfOk result IsInRange }
    ensures wants_none { lacks result ≡ 0 }
{
    let seed = SEED_OF_DRILL.read(matches).ok_or(WordsError::Usage)?;
    let calls = CALLS_OF_DRILL.read(matches).ok_or(WordsError::Usage)? as u32;
    Ok(Task::Drill { seed, calls })
}

// The words of `serve` with their texts copied.
fn serve_copied(memory: &mut Memory, terms: &ServeTerms<'_>) -> Result<Task, NoMemory>
    ensures task { IfOk result (λ task. task ≡ Serve (serve_words terms.now)) }
    ensures cause { HasCause memory.old memory.new result }
{
    let relay = copied_if(memory, terms.relay)?;
    let addr = copied(memory, terms.addr)?;
    Ok(Task::Serve(ServeSpec {
        addr,
        turns: terms.turns,
        workers: terms.workers,
        life: terms.life,
        relay,
        timeout: terms.timeout,
        idle: terms.idle,
    }))
}

// What the words of `serve` ask for.
fn serve_of(memory: &mut Memory, matches: &ArgMatches<'_>) -> Result<Task, WordsError>
    ensures value { Reads result (serve_of_rows (rows_of (found_of matches.now))) }
    ensures range { IfOk result IsInRange }
    ensures cause { HasRisenBy (lacks result) memory.old memory.new }
{
    let Some(terms) = serve_terms(matches) else {
        return Err(WordsError::Usage);
    };
    let task = serve_copied(memory, &terms)?;
    Ok(task)
}

// The words of `load` with their texts copied.
fn load_copied(memory: &mut Memory, terms: &LoadTerms<'_>) -> Result<Task, NoMemory>
    ensures task { IfOk result (λ task. task ≡ Load (load_words terms.now)) }
    ensures cause { HasCause memory.old memory.new result }
{
    let bind = copied(memory, terms.bind)?;
    let addr = copied(memory, terms.addr)?;
    Ok(Task::Load(LoadSpec {
        addr,
        calls: terms.calls,
        req_type: terms.req_type,
        size: terms.size,
        seed: terms.seed,
        turns: terms.turns,
        bind,
        frame: terms.frame,
        life: terms.life,
        timeout: terms.timeout,
        idle: terms.idle,
    }))
}

// What the words of `load` ask for.
fn load_of(memory: &mut Memory, matches: &ArgMatches<'_>) -> Result<Task, WordsError>
    ensures value { Reads result (load_of_rows (rows_of (found_of matches.now))) }
    ensures range { IfOk result IsInRange }
    ensures cause { HasRisenBy (lacks result) memory.old memory.new }
{
    let Some(terms) = load_terms(matches) else {
        return Err(WordsError::Usage);
    };
    let task = load_copied(memory, &terms)?;
    Ok(task)
}

// What the words of a subcommand ask for.
fn asked_of(
    memory: &mut Memory,
    of: Subcommand,
    matches: &ArgMatches<'_>,
) -> Result<Task, WordsError>
    ensures value { Reads result (rows_in of (rows_of (found_of matches.now))) }
    ensures range { IfOk result IsInRange }
    ensures cause { HasRisenBy (lacks result) memory.old memory.new }
{
    match of {
        Subcommand::Sim => Ok(Task::Sim),
        Subcommand::Drill => drill_of(matches),
        Subcommand::Serve => serve_of(memory, matches),
        Subcommand::Load => load_of(memory, matches),
        Subcommand::Audit => Ok(Task::Audit),
    }
}

// Reads the words after the name of a subcommand.
fn read_rest(memory: &mut Memory, of: Subcommand, words: &[String]) -> Result<Task, WordsError>
    ensures value { Reads result (words_in of (map string_bytes words.now)) }
    ensures range { IfOk result IsInRange }
    ensures cause { HasRisenBy (lacks result) memory.old memory.new }
{
    let command = command_of(memory, of)?;
    let matches = take(memory, command, words)?;
    asked_of(memory, of, &matches)
}

/// Reads the words after the program's name.
#[tactic(auto, unfolding(crate::specs::Tasks::task_of))]
pub fn read_words(memory: &mut Memory, words: &[String]) -> Result<Task, WordsError>
    ensures value { Reads result (task_of (map string_bytes words.now)) }
    ensures range { IfOk result IsInRange }
    ensures cause { HasRisenBy (lacks result) memory.old memory.new }
{
    let Some((name, rest)) = words.split_first() else {
        return Err(WordsError::Usage);
    };
    let Some(of) = Subcommand::named(name.as_str()) else {
        return Err(WordsError::Usage);
    };
    read_rest(memory, of, rest)
}
