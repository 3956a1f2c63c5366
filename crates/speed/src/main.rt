//! Measures calls. `speed ADDR` asks calls of a server that runs at a UDP address, as `erpc serve`
//! does, and `speed memory` of one in this program, over a link in memory. It tells on standard
//! error, a line each second and one for each number at its end, how many calls ended and how long
//! they took, or writes one line of JSON. `rows` runs a thousand calls over each kind of link, and
//! tells no times.
#![tactic(auto)]

mod fault;
mod json;
mod options;
mod report;
mod rows;
mod run;
mod server;
mod wire;

use crate::fault::Fault;
use crate::options::{Options, read};
use crate::run::Run;
use crate::server::Elsewhere;
use call_load::{Caller, Tally};
use memory_count::Memory;
use std::alloc::AllocError;
use std::env;
use std::io::{self, Write};
use std::process::ExitCode;
use std::rt::Env;
use udp_link::UdpLink;

/// What the words may be.
const USAGE: &str = "usage: speed ADDR|memory [--sessions S] [--credits C] [--pending N] \
    [--calls N] [--rate R] [--secs T] [--warm T] [--type Y] [--size BYTES] \
    [--timeout MICROSECONDS] [--frame BYTES] [--bind ADDR] [--json]";

// The words after the program's name.
fn words_of(rt: &(impl Env + AllocGlobal)) -> io::Result<Vec<String>> {
    let mut words = Vec::new(rt.alloc());
    for word in env::args(rt)?.skip(1) {
        words.push(word).map_err(AllocError::from)?;
    }
    Ok(words)
}

// Calls of a server at an address.
fn over_sockets(rt: &HostRuntime, options: &Options) -> Result<Tally, Fault> {
    let aim = options.aim()?;
    let mut memory = Memory::new(rt.alloc());
    let caller = Caller::new(&mut memory, aim)?;
    let link = UdpLink::of_one(rt.alloc(), rt);
    let mut run = Run::new(memory, caller, link, Elsewhere, rt);
    run.go(rt, options)
}

fn run_words(rt: &HostRuntime, words: &[String]) -> Result<(), Fault> {
    let Some((first, rest)) = words.split_first() else {
        return Err(Fault::Words);
    };
    if first.as_str() == "rows" {
        return rows::run(rt);
    }
    let options = read(first.as_str(), rest, false)?;
    let _tally = match options.addr {
        "memory" => rows::over_memory(rt, &options)?,
        _ => over_sockets(rt, &options)?,
    };
    Ok(())
}

fn main(rt: HostRuntime) -> io::Result<ExitCode> {
    let words = words_of(&rt)?;
    match run_words(&rt, words.as_slice()) {
        Ok(()) => Ok(ExitCode::SUCCESS),
        Err(fault) => {
            eprintln!(rt; "speed: {fault}")?;
            if fault == Fault::Words {
                eprintln!(rt; "{USAGE}")?;
            }
            Ok(ExitCode::from(fault.code()))
        }
    }
}
