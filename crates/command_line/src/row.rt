//! The simple commands of the subcommands, by the kit's `clap`.
ghost use Rattle.std.specs.Prelude.{◌≡◌, ◌↔◌, IfOk, List, map, true};
ghost use Rattle.std.specs.String.{string_bytes};
ghost use Rattle.clap.specs.Words.{Rule, app_of, is_simple_and_free, rule_of};
ghost use Rattle.clap.specs.declared.error.kind.ErrorKind.TheVariants.{OutOfMemory};
ghost use Rattle.command_line.specs.Answers.{Takes, lacks, lacks_by};
ghost use Rattle.command_line.specs.Args.{AreArgs, IsArg, with_rules};
ghost use Rattle.command_line.specs.Rows.{drill_row, flag, load_row, named, needed};
ghost use Rattle.command_line.specs.Rows.{optional, positional, row, serve_row};
ghost use Rattle.command_line.specs.Subcommands.{row_of};
ghost use Rattle.memory_count.specs.Faults.{HasCause, HasRisenBy};

use crate::forms::{AUDIT, DRILL, LOAD, SERVE, SIM};
use crate::subcommand::Subcommand;
use crate::task::WordsError;
use clap::error::ErrorKind;
use clap::{Arg, ArgAction, ArgMatches, Command};
use memory_count::{Memory, NoMemory};
use std::alloc::{AllocError, Global};

/// A command, or that there was no memory for one of its arguments.
pub type Made<'a> = Result<Command<'a>, NoMemory>;

/// An argument without a name, that has to be given.
fn positional<'a>(alloc: Global, id: &'a str) -> Arg<'a>
    ensures { IsArg result (positional id.entry.now) }
{
    Arg::new(alloc, id).action(ArgAction::Set).required(true)
}

/// An argument `--NAME VALUE`, which is not given twice; a user reads `value` for its value.
fn named<'a>(alloc: Global, name: &'a str, value: &'a str) -> Arg<'a>
    ensures { IsArg result (named name.entry.now) }
{
    Arg::new(alloc, name)
        .long(name)
        .action(ArgAction::Set)
        .value_name(value)
}

/// The same, which has to be given.
fn needed<'a>(alloc: Global, name: &'a str, value: &'a str) -> Arg<'a>
    ensures { IsArg result (needed name.entry.now) }
{
    named(alloc, name, value).required(true)
}

/// The same, with its value where it is not given.
fn optional<'a>(alloc: Global, name: &'a str, value: &'a str, default: &'a str) -> Arg<'a>
    ensures { IsArg result (optional name.entry.now default.entry.now) }
{
    named(alloc, name, value).default_value(default)
}

/// An argument `--NAME`, which is not given twice and has no value.
fn flag<'a>(alloc: Global, name: &'a str) -> Arg<'a>
    ensures { IsArg result (flag name.entry.now) }
{
    Arg::new(alloc, name).long(name).action(ArgAction::SetTrue)
}

/// A command that reads all of its words, with how it is called.
fn row<'a>(alloc: Global, name: &'a str, words: &'a str) -> Command<'a>
    ensures { app_of result ≡ row name.entry.now }
{
    Command::new(alloc, name)
        .no_binary_name(true)
        .override_usage(words)
}

/// The command with these arguments more, in turn.
fn with_all<'a>(memory: &mut Memory, command: Command<'a>, args: Vec<Arg<'a>>) -> Made<'a>
    ensures added { (rules : List Rule) → AreArgs args.entry.items rules
        → IfOk result (λ made. app_of made ≡ with_rules (app_of command.entry) rules) }
    ensures cause { HasCause memory.old memory.new result }
{
    let made = command.args(args);
    memory.of(made)
}

/// `drill SEED CALLS`.
fn drill<'a>(memory: &mut Memory) -> Made<'a>
    ensures row { IfOk result (λ command. app_of command ≡ drill_row) }
    ensures cause { HasCause memory.old memory.new result }
{
    let alloc = memory.alloc();
    let args = vec![in alloc; positional(alloc, "SEED"), positional(alloc, "CALLS")];
    let args = memory.of(args.map_err(AllocError::from))?;
    with_all(memory, row(alloc, "drill", DRILL), args)
}

/// `serve ADDR --turns T [--workers W] [--relay ADDR] [--life L] [--timeout MICROSECONDS]
/// [--spin]`.
fn serve<'a>(memory: &mut Memory) -> Made<'a>
    ensures row { IfOk result (λ command. app_of command ≡ serve_row) }
    ensures cause { HasCause memory.old memory.new result }
{
    let alloc = memory.alloc();
    let args = vec![in alloc;
        positional(alloc, "ADDR"),
        needed(alloc, "turns", "T"),
        optional(alloc, "workers", "W", "0"),
        named(alloc, "relay", "ADDR"),
        optional(alloc, "life", "L", "1"),
        optional(alloc, "timeout", "MICROSECONDS", "5000"),
        flag(alloc, "spin"),
    ];
    let args = memory.of(args.map_err(AllocError::from))?;
    with_all(memory, row(alloc, "serve", SERVE), args)
}

/// `load ADDR --calls N --type Y --size Z --seed G --turns T [--bind ADDR] [--frame BYTES]
/// [--life L] [--timeout MICROSECONDS] [--spin]`.
fn load<'a>(memory: &mut Memory) -> Made<'a>
    ensures row { IfOk result (λ command. app_of command ≡ load_row) }
    ensures cause { HasCause memory.old memory.new result }
{
    let alloc = memory.alloc();
    let args = vec![in alloc;
        positional(alloc, "ADDR"),
        needed(alloc, "calls", "N"),
        needed(alloc, "type", "Y"),
        needed(alloc, "size", "Z"),
        needed(alloc, "seed", "G"),
        needed(alloc, "turns", "T"),
        optional(alloc, "bind", "ADDR", "127.0.0.1:0"),
        named(alloc, "frame", "BYTES"),
        optional(alloc, "life", "L", "1"),
        optional(alloc, "timeout", "MICROSECONDS", "5000"),
        flag(alloc, "spin"),
    ];
    let args = memory.of(args.map_err(AllocError::from))?;
    with_all(memory, row(alloc, "load", LOAD), args)
}

/// The command that takes the words of a subcommand.
pub fn command_of<'a>(memory: &mut Memory, of: Subcommand) -> Made<'a>
    ensures row { IfOk result (λ command. app_of command ≡ row_of of) }
    ensures cause { HasCause memory.old memory.new result }
{
    match of {
        Subcommand::Sim => Ok(row(memory.alloc(), "sim", SIM)),
        Subcommand::Drill => drill(memory),
        Subcommand::Serve => serve(memory),
        Subcommand::Load => load(memory),
        Subcommand::Audit => Ok(row(memory.alloc(), "audit", AUDIT)),
    }
}

/// What words that a command doesn't take are, by the kind of its error: `clap` tells by a kind
/// that there was no memory.
fn refusal(memory: &mut Memory, kind: ErrorKind) -> WordsError
    ensures kind { (result ≡ WordsError.NoMemory) ↔ (kind ≡ OutOfMemory) }
    ensures cause { HasRisenBy (lacks_by result) memory.old memory.new }
{
    match kind {
        ErrorKind::OutOfMemory => WordsError::from(memory.told()),
        _ => WordsError::Usage,
    }
}

/// What a command makes of the words.
pub fn take<'a>(
    memory: &mut Memory,
    command: Command<'a>,
    words: &'a [String],
) -> Result<ArgMatches<'a>, WordsError>
    requires { is_simple_and_free (app_of command) ≡ true }
    ensures takes { Takes result (app_of command.entry) (map string_bytes words.entry.now) }
    ensures cause { HasRisenBy (lacks result) memory.old memory.new }
{
    match command.try_get_matches_from(words) {
        Ok(matches) => Ok(matches),
        Err(error) => Err(refusal(memory, error.kind())),
    }
}
