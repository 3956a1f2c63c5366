//! Measures borrowing and giving back: `pool_speed table THREADS TIMES` does so that many times on
//! each of 1, 2 or 4 threads, with a shared pool, and `pool_speed mutex THREADS TIMES` with a pool
//! behind one lock. Each writes how often a buffer was lent, and tells on standard error how long
//! it took. Without words it does a few of both on one thread.
#![tactic(auto)]

mod locked;
mod tabled;

use memory_count::{Memory, NoMemory};
use rpc_outside::{Clock, SysClock};
use std::process::ExitCode;
use std::rt::Env;
use std::sync::Wait;
use std::thread::Threads;
use std::{env, io, time};

/// The exit code where the words aren't those that are wanted, or there was no memory.
const UNDONE: u8 = 1;

/// The buffers of each pool, and their capacity, in bytes.
pub const PLACES: u32 = 4;

pub const CAPACITY: u32 = 64;

/// How often a buffer is borrowed without words.
const FEW: u32 = 10;

/// How many threads borrow.
#[derive(Clone, Copy, Debug, PartialEq, Eq)]
pub enum Crowd {
    One,
    Two,
    Four,
}

/// Which pool they borrow from.
#[derive(Clone, Copy, Debug, PartialEq, Eq)]
pub enum Kind {
    Table,
    Mutex,
}

/// What is asked for.
#[derive(Clone, Copy)]
struct Task {
    kind: Kind,
    crowd: Crowd,
    times: u32,
}

fn crowd_of(word: &str) -> Option<Crowd> {
    match word {
        "1" => Some(Crowd::One),
        "2" => Some(Crowd::Two),
        "4" => Some(Crowd::Four),
        _ => None,
    }
}

fn kind_of(word: &str) -> Option<Kind> {
    match word {
        "table" => Some(Kind::Table),
        "mutex" => Some(Kind::Mutex),
        _ => None,
    }
}

// What the words ask for: `Ok(None)` where there are none, and `Err` where they are others.
fn task_of(rt: &(impl Env + AllocGlobal)) -> io::Result<Result<Option<Task>, ()>> {
    let mut words = env::args(rt)?.skip(1);
    let Some(first) = words.next() else {
        return Ok(Ok(None));
    };
    let kind = kind_of(first.as_str());
    let crowd = words.next().and_then(|word| crowd_of(word.as_str()));
    let times = words.next().and_then(|word| word.parse::<u32>().ok());
    match (kind, crowd, times, words.next()) {
        (Some(kind), Some(crowd), Some(times), None) => {
            Ok(Ok(Some(Task { kind, crowd, times })))
        }
        _ => Ok(Err(())),
    }
}

fn borrow<R: Threads + Wait + Sync>(
    memory: &mut Memory,
    rt: &R,
    task: &Task,
) -> Result<u64, NoMemory> {
    match task.kind {
        Kind::Table => tabled::borrow(memory, rt, task.crowd, task.times),
        Kind::Mutex => locked::borrow(memory, rt, task.crowd, task.times),
    }
}

/// What came of a task.
#[derive(Drop)]
struct Measured {
    /// How often a buffer was lent.
    lent: u64,
    /// How long it took, in microseconds.
    micros: u64,
}

fn measure<R: time::Clock + Threads + Wait + Sync>(
    memory: &mut Memory,
    rt: &R,
    task: &Task,
) -> Result<Measured, NoMemory> {
    let mut clock = SysClock::new(rt);
    let start = clock.now();
    let lent = borrow(memory, rt, task)?;
    let end = clock.now();
    Ok(Measured {
        lent,
        micros: end.saturating_sub(start),
    })
}

// What is done without words.
fn few(kind: Kind) -> Task {
    Task {
        kind,
        crowd: Crowd::One,
        times: FEW,
    }
}

fn main(rt: HostRuntime) -> io::Result<ExitCode> {
    let Ok(asked) = task_of(&rt)? else {
        eprintln!(rt; "usage: pool_speed (table|mutex) (1|2|4) TIMES")?;
        return Ok(ExitCode::from(UNDONE));
    };
    let tasks = match asked {
        Some(task) => [Some(task), None],
        None => [Some(few(Kind::Table)), Some(few(Kind::Mutex))],
    };
    let mut memory = Memory::new(rt.alloc());
    for task in tasks.iter().flatten() {
        let Ok(measured) = measure(&mut memory, &rt, task) else {
            eprintln!(rt; "pool_speed: there is no memory")?;
            return Ok(ExitCode::from(UNDONE));
        };
        eprintln!(rt; "pool_speed: {} microseconds", measured.micros)?;
        println!(rt; "lent {}", measured.lent)?;
    }
    Ok(ExitCode::SUCCESS)
}
