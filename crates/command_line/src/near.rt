//! The name that is near to a word that is none, by `clap`.
ghost use Rattle.memory_count.specs.Faults.{HasCause};

use crate::row::Made;
use crate::subcommand::NAMES;
use clap::Command;
use memory_count::{Memory, NoMemory};
use std::alloc::AllocError;

/// How the line of `clap` begins that offers names near to a word.
const OFFERS: [&str; 2] = ["  tip: a similar ", "  tip: some similar "];

fn is_offer(line: &str) -> bool {
    OFFERS.iter().any(|front| line.starts_with(*front))
}

/// The name in quotes at the end of a line, the nearest where `clap` offers several.
fn last_name(line: &str) -> Option<&str> {
    let line = line.strip_suffix('\'')?;
    let (_offer, name) = line.rsplit_once('\'')?;
    Some(name)
}

/// Whether the name was meant that `clap` offers in the text of an error; nothing where it offers
/// none.
pub fn question(memory: &mut Memory, text: &str) -> Result<String, NoMemory>
    ensures cause { HasCause memory.old memory.new result }
{
    let near = text.lines().find(|line| is_offer(line)).and_then(last_name);
    let alloc = memory.alloc();
    match near {
        Some(name) => memory.of(format!(in alloc; " (did you mean '{name}'?)")),
        None => Ok(String::new(alloc)),
    }
}

/// A command that has the subcommands, each by its name alone.
fn all_names<'a>(memory: &mut Memory) -> Made<'a>
    ensures cause { HasCause memory.old memory.new result }
{
    let alloc = memory.alloc();
    let mut subcommands = Vec::new(alloc);
    'names: for name in NAMES {
        let pushed = subcommands.push(Command::new(alloc, name));
        memory.of(pushed.map_err(AllocError::from))?;
    }
    let made = Command::new(alloc, "erpc")
        .no_binary_name(true)
        .subcommands(subcommands);
    memory.of(made)
}

/// The same of a word that is the name of no subcommand.
pub fn question_of_name(memory: &mut Memory, name: &str) -> Result<String, NoMemory>
    ensures cause { HasCause memory.old memory.new result }
{
    let command = all_names(memory)?;
    let words = [name];
    match command.try_get_matches_from(&words) {
        Ok(_matches) => Ok(String::new(memory.alloc())),
        Err(error) => {
            let text = error.to_string(memory.alloc());
            let text = memory.of(text)?;
            question(memory, text.as_str())
        }
    }
}
