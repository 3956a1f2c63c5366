//! What a user reads where the words are not in the grammar.
ghost use Rattle.memory_count.specs.Faults.{HasReason};

use crate::forms::FORMS;
use crate::near::{question, question_of_name};
use crate::number::{Number, TYPES, request_type, workers_of};
use crate::row::command_of;
use crate::subcommand::Subcommand;
use crate::text::{copied, text_at};
use crate::words::{
    CALLS, CALLS_OF_DRILL, FRAME, LIFE, SEED, SEED_OF_DRILL, SIZE, TIMEOUT, TURNS, WORKERS,
};
use clap::{ArgMatches, Error};
use memory_count::{Memory, NoMemory};

const NUMBERS_OF_DRILL: [Number; 2] = [SEED_OF_DRILL, CALLS_OF_DRILL];

const NUMBERS_OF_SERVE: [Number; 4] = [TURNS, WORKERS, LIFE, TIMEOUT];

const NUMBERS_OF_LOAD: [Number; 7] = [CALLS, SIZE, SEED, TURNS, FRAME, LIFE, TIMEOUT];

/// Puts a part at the end of a text.
fn add(memory: &mut Memory, text: &mut String, part: &str) -> Result<(), NoMemory>
    ensures cause { HasReason memory.old memory.new result }
{
    let pushed = text.push_str(part);
    memory.of(pushed)
}

/// The lines of an error of `clap` up to an empty one, in one line.
fn first_paragraph(memory: &mut Memory, text: &str) -> Result<String, NoMemory>
    ensures cause { HasReason memory.old memory.new result }
{
    let front = text.strip_prefix("error: ").unwrap_or(text);
    let mut line = String::new(memory.alloc());
    'parts: for part in front.lines().take_while(|part| !part.is_empty()) {
        if !line.is_empty() {
            add(memory, &mut line, " ")?;
        }
        add(memory, &mut line, part.trim())?;
    }
    Ok(line)
}

/// What `clap` says of words, and whether a near name was meant, in one line.
fn in_one_line(memory: &mut Memory, error: &Error) -> Result<String, NoMemory>
    ensures cause { HasReason memory.old memory.new result }
{
    let text = error.to_string(memory.alloc());
    let text = memory.of(text)?;
    let mut line = first_paragraph(memory, text.as_str())?;
    let question = question(memory, text.as_str())?;
    add(memory, &mut line, question.as_str())?;
    Ok(line)
}

/// The request types that `load` may ask, one after another.
fn known_types(memory: &mut Memory) -> Result<String, NoMemory>
    ensures cause { HasReason memory.old memory.new result }
{
    let mut text = String::new(memory.alloc());
    'types: for known in TYPES {
        if !text.is_empty() {
            add(memory, &mut text, ", ")?;
        }
        let written = write!(text, "{known}");
        memory.of(written)?;
    }
    Ok(text)
}

/// Whether the words give a value for a number that is none of its range, or leave one out that has
/// to be given.
fn is_wrong(number: &Number, matches: &ArgMatches<'_>) -> bool {
    let may_be_left_out = number.id == "frame";
    let is_left_out = may_be_left_out && text_at(matches, number.id).is_none();
    !is_left_out && number.read(matches).is_none()
}

/// What is wrong with a number.
fn wrong_number(
    memory: &mut Memory,
    matches: &ArgMatches<'_>,
    number: &Number,
) -> Result<String, NoMemory>
    ensures cause { HasReason memory.old memory.new result }
{
    let text = text_at(matches, number.id).unwrap_or("");
    let shown = number.shown;
    let low = number.low;
    let high = number.high;
    let alloc = memory.alloc();
    memory.of(format!(in alloc; "{shown} is a number from {low} to {high}, not {text:?}"))
}

/// That a request type is none of its list.
fn wrong_type(memory: &mut Memory, text: &str) -> Result<String, NoMemory>
    ensures cause { HasReason memory.old memory.new result }
{
    let types = known_types(memory)?;
    let alloc = memory.alloc();
    memory.of(format!(in alloc; "--type is one of {types}, not {text:?}"))
}

/// Which number is none of its range, that the request type is none of its list, or that threads
/// are to work jobs of which another server is asked.
fn wrong_value(
    memory: &mut Memory,
    matches: &ArgMatches<'_>,
    numbers: &[Number],
) -> Result<String, NoMemory>
    ensures cause { HasReason memory.old memory.new result }
{
    for number in numbers {
        if is_wrong(number, matches) {
            return wrong_number(memory, matches, number);
        }
    }
    let has_relay = text_at(matches, "relay").is_some();
    match text_at(matches, "type") {
        Some(text) if request_type(matches).is_none() => wrong_type(memory, text),
        None if has_relay && workers_of(matches).is_none() => {
            copied(memory, "--workers is 0 where --relay is given")
        }
        _ => copied(memory, "out of memory"),
    }
}

/// The same, by the numbers of a subcommand.
fn wrong_value_of(
    memory: &mut Memory,
    of: Subcommand,
    matches: &ArgMatches<'_>,
) -> Result<String, NoMemory>
    ensures cause { HasReason memory.old memory.new result }
{
    match of {
        Subcommand::Sim | Subcommand::Audit => wrong_value(memory, matches, &[]),
        Subcommand::Drill => wrong_value(memory, matches, &NUMBERS_OF_DRILL),
        Subcommand::Serve => wrong_value(memory, matches, &NUMBERS_OF_SERVE),
        Subcommand::Load => wrong_value(memory, matches, &NUMBERS_OF_LOAD),
    }
}

/// What is wrong with the words of a subcommand.
fn wrong_in(memory: &mut Memory, of: Subcommand, words: &[String]) -> Result<String, NoMemory>
    ensures cause { HasReason memory.old memory.new result }
{
    let command = command_of(memory, of)?;
    match command.try_get_matches_from(words) {
        Ok(matches) => wrong_value_of(memory, of, &matches),
        Err(error) => in_one_line(memory, &error),
    }
}

/// The same, and how it is called.
fn wrong_words(memory: &mut Memory, of: Subcommand, words: &[String]) -> Result<String, NoMemory>
    ensures cause { HasReason memory.old memory.new result }
{
    let wrong = wrong_in(memory, of, words)?;
    let form = of.form();
    let alloc = memory.alloc();
    memory.of(format!(in alloc; "{wrong}; usage: {form}"))
}

/// That a word is no subcommand, and whether a near name was meant.
fn wrong_name(memory: &mut Memory, name: &str) -> Result<String, NoMemory>
    ensures cause { HasReason memory.old memory.new result }
{
    let question = question_of_name(memory, name)?;
    let alloc = memory.alloc();
    memory.of(format!(in alloc;
        "{name:?} is no subcommand{question}; those are sim, drill, serve, load and audit"
    ))
}

/// How each subcommand is called, and what it does, a line each.
pub fn usage(memory: &mut Memory) -> Result<String, NoMemory>
    ensures cause { HasReason memory.old memory.new result }
{
    let mut text = copied(memory, "usage:")?;
    'forms: for (words, does) in FORMS {
        let written = write!(text, "\n  {words}\n      {does}");
        memory.of(written)?;
    }
    Ok(text)
}

/// Tells whether the words ask for help, or are none.
fn ask_for_help(words: &[String]) -> bool {
    match words.first() {
        Some(word) if word.as_str() != "help" => words
            .iter()
            .any(|word| word.as_str() == "--help" || word.as_str() == "-h"),
        _ => true,
    }
}

/// What to tell of words that are not in the grammar: the word that is wrong and how its subcommand
/// is called, in one line; how each is called, where the words ask for help or are none.
pub fn complaint(memory: &mut Memory, words: &[String]) -> Result<String, NoMemory>
    ensures cause { HasReason memory.old memory.new result }
{
    if ask_for_help(words) {
        return usage(memory);
    }
    let Some((name, rest)) = words.split_first() else {
        return usage(memory);
    };
    let name = name.as_str();
    match Subcommand::named(name) {
        Some(of) => wrong_words(memory, of, rest),
        None => wrong_name(memory, name),
    }
}
