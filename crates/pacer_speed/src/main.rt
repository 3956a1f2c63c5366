//! Adds packets to a pacer and takes them out, to have their instructions counted: `pacer_speed
//! WAITING ROUNDS` puts so many in, and then takes one out and puts one in, over and over. It tells
//! how many came out.
#![tactic(auto)]

use memory_count::{Memory, NoMemory};
use pacing_wheel::Pacer;
use packet_rings::Entry;
use rpc_base::{Owner, Peer};
use std::process::ExitCode;
use std::rt::Env;
use std::{env, io};

/// The exit code where the words aren't those that are wanted.
const USAGE: u8 = 1;

/// The exit code where there was no memory, or not all came out.
const UNDONE: u8 = 2;

/// So many packets are due in each microsecond.
const IN_A_MICROSECOND: u32 = 4;

const PACKET: Entry = Entry {
    owner: Owner::Control,
    number: 0,
    place: None,
    peer: Peer(0),
};

// When packet `i` is due, in microseconds, as each one is once `i` others were.
fn due(i: u64) -> u64 {
    i / u64::from(IN_A_MICROSECOND)
}

// Puts a packet in, where there is room.
fn put(pacer: &mut Pacer, due: u64) {
    if pacer.len() < pacer.size() {
        pacer.add(due, PACKET);
    }
}

// Puts so many in, then one for each that comes out, and counts these.
fn turn_over(memory: &mut Memory, waiting: u32, rounds: u32) -> Result<u32, NoMemory> {
    let mut pacer = Pacer::new(memory, waiting)?;
    for i in 0..waiting {
        put(&mut pacer, due(u64::from(i)));
    }
    let mut released = 0u32;
    for round in 0..rounds {
        if pacer.release(due(u64::from(round))).is_some() {
            released = released.saturating_add(1);
        }
        put(&mut pacer, due(u64::from(round) + u64::from(waiting)));
    }
    Ok(released)
}

// How many wait, and the number of rounds, if these are the words.
fn numbers_of(rt: &(impl Env + AllocGlobal)) -> io::Result<Option<(u32, u32)>> {
    let mut words = env::args(rt)?.skip(1);
    let waiting = words.next().and_then(|word| word.parse::<u32>().ok());
    let rounds = words.next().and_then(|word| word.parse::<u32>().ok());
    match (waiting, rounds, words.next()) {
        (Some(waiting), Some(rounds), None) => Ok(Some((waiting, rounds))),
        _ => Ok(None),
    }
}

fn main(rt: HostRuntime) -> io::Result<ExitCode> {
    let Some((waiting, rounds)) = numbers_of(&rt)? else {
        eprintln!(rt; "usage: pacer_speed WAITING ROUNDS")?;
        return Ok(ExitCode::from(USAGE));
    };
    let mut memory = Memory::new(rt.alloc());
    let Ok(released) = turn_over(&mut memory, waiting, rounds) else {
        eprintln!(rt; "pacer_speed: there is no memory")?;
        return Ok(ExitCode::from(UNDONE));
    };
    println!(rt; "waiting {waiting} rounds {rounds} released {released}")?;
    if released == rounds {
        Ok(ExitCode::SUCCESS)
    } else {
        Ok(ExitCode::from(UNDONE))
    }
}
