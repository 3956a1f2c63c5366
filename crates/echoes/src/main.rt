//! Runs echoes between two endpoints, to have their instructions counted: `echoes CALLS SESSIONS`
//! runs so many, one after another, on the first of so many sessions, and tells how many ended
//! well. It has endpoints of one kind, as an application has, and is compiled as one is.
#![tactic(auto)]

mod echoes;

use crate::echoes::echo;
use std::process::ExitCode;
use std::rt::Env;
use std::{env, io};

/// The exit code where the words aren't those that are wanted.
const USAGE: u8 = 1;

/// The exit code where there was no memory, or a call didn't end well.
const UNDONE: u8 = 2;

// The number that a word spells, if it is one.
fn number_of(word: Option<String>) -> Option<u32> {
    let word = word?;
    word.parse::<u32>().ok()
}

// The number of calls and that of sessions, if these are the words.
fn numbers_of(rt: &(impl Env + AllocGlobal)) -> io::Result<Option<(u32, u16)>> {
    let mut words = env::args(rt)?;
    let _program = words.next();
    let (calls, sessions) = (number_of(words.next()), number_of(words.next()));
    if words.next().is_some() {
        return Ok(None);
    }
    let (Some(calls), Some(sessions)) = (calls, sessions) else {
        return Ok(None);
    };
    match u16::try_from(sessions) {
        Ok(sessions) => Ok(Some((calls, sessions))),
        Err(_) => Ok(None),
    }
}

fn main(rt: HostRuntime) -> io::Result<ExitCode> {
    let Some((calls, sessions)) = numbers_of(&rt)? else {
        eprintln!(rt; "usage: echoes CALLS SESSIONS")?;
        return Ok(ExitCode::from(USAGE));
    };
    let Ok(echoed) = echo(rt.alloc(), calls, sessions) else {
        eprintln!(rt; "echoes: there is no memory")?;
        return Ok(ExitCode::from(UNDONE));
    };
    println!(rt; "echoes {calls} ok {echoed}")?;
    if echoed == calls {
        Ok(ExitCode::SUCCESS)
    } else {
        Ok(ExitCode::from(UNDONE))
    }
}
