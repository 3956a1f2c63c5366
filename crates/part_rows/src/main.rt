//! The parts that an endpoint is made of, each by itself. Standard input has rows: a line `# ..`
//! tells what the row shows, the next one makes a part, and each further line is a call of it. They
//! are told with what each call answers. A file has calls of links over sockets. A further row
//! costs no proof.
#![tactic(auto)]

mod buffers;
mod callers;
mod credits;
mod network;
mod pacing;
mod packets;
mod part;
mod places;
mod receiving;
mod sending;
mod slots;
mod sockets;
mod step;

use crate::step::Step;
use memory_count::{Memory, NoMemory};
use std::io::Read;
use std::{fs, io};

/// An error of want of memory.
fn no_memory(_none: NoMemory) -> io::Error {
    io::Error::from(io::ErrorKind::OutOfMemory)
}

// Makes the part that the first line names, and calls it as the lines behind it say.
fn drive(rt: &impl Print, memory: &mut Memory, first: &str, calls: &str) -> io::Result<()> {
    let made = Step::read(first);
    match made.name {
        "buffer" => buffers::drive(rt, memory, made.long(0), calls),
        "receive" => receiving::drive(rt, memory, made.long(0), calls),
        "transmit" => sending::drive(rt, memory, made.long(0), calls),
        "pacer" => pacing::drive(rt, memory, made.long(0), calls),
        "credits" => credits::drive(rt, memory, made.short(0), calls),
        "slots" => slots::drive(rt, memory, calls),
        "calling" => callers::drive(rt, memory, calls),
        "network" => network::drive(rt, memory, calls),
        "places" => places::tell(rt, memory),
        _ => println!(rt; "no such part"),
    }
}

// A row: what it shows, the part, and the calls.
fn row(rt: &impl Print, memory: &mut Memory, text: &str) -> io::Result<()> {
    let (title, rest) = text.split_once('\n').unwrap_or((text, ""));
    let (first, calls) = rest.split_once('\n').unwrap_or((rest, ""));
    println!(rt; "# {title}")?;
    println!(rt; "{first}")?;
    drive(rt, memory, first, calls)
}

fn main(rt: HostRuntime) -> io::Result<()> {
    let mut text = String::new(rt.alloc());
    rt.stdin().read_to_string(&mut text)?;
    let mut memory = Memory::new(rt.alloc());
    for text in text.as_str().split("# ").skip(1) {
        row(&rt, &mut memory, text)?;
    }
    let calls = fs::read_to_string(&rt, "sockets.calls")?;
    sockets::drive(&rt, rt.alloc(), calls.as_str())
}
