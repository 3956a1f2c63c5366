//! Crews over a spawner, call by call.
ghost use Rattle.std.specs.Prelude.{◌≡◌, ◌<◌, ◌≤◌, []};
ghost use Rattle.worker_crew.specs.Crews.{SameHands};

use crate::jobs::{Told, no_memory, reverse_of, text_of};
use crate::step::Step;
use memory_count::Memory;
use rpc_outside::{Duty, PlainDuty};
use std::sync::{Arc, Wait};
use std::{io, thread};
use worker_board::MOST_PLACES;
use worker_crew::{Crew, Finished, Hand, Leftover, MOST_HANDS, Spawner, Workers};

/// A crew of the plain duty.
pub type PlainCrew<R> = Crew<PlainDuty, R>;

/// So often a crew is asked for a job that a thread is to do.
const TURNS: u32 = 50_000_000;

/// Takes a job once one is done.
pub fn take_one<D: Duty, R: Wait>(crew: &mut Crew<D, R>) -> Option<Finished>
    ensures { SameHands crew.old crew.new }
{
    for _ in 0..TURNS {
        if let Some(finished) = crew.take() {
            return Some(finished);
        }
        thread::yield_now();
    }
    None
}

// Gives a job of the first two letters of a text.
fn give<R: Wait>(
    memory: &mut Memory,
    rt: &impl Print,
    crew: &mut PlainCrew<R>,
    text: &str,
) -> io::Result<()>
    ensures { SameHands crew.old crew.new }
{
    let bytes = text.as_bytes();
    if bytes.len() != 2 {
        return println!(rt; "no job");
    }
    let Ok(job) = reverse_of(memory, [bytes[0], bytes[1]]) else {
        return Err(no_memory());
    };
    match crew.give(job) {
        Ok(()) => println!(rt; "given"),
        Err(job) => println!(rt; "handed back {}", text_of(&job.ask)),
    }
}

/// Tells what a call answers.
pub fn call<R: Wait>(
    memory: &mut Memory,
    rt: &impl Print,
    crew: &mut PlainCrew<R>,
    step: Step,
) -> io::Result<()>
    ensures { SameHands crew.old crew.new }
{
    match step.name {
        "give" => give(memory, rt, crew, step.word(0)),
        "full" => println!(rt; "{}", crew.full()),
        "take" => {
            let finished = crew.take();
            println!(rt; "{}", Told(&finished))
        }
        "await" => {
            let finished = take_one(crew);
            println!(rt; "{}", Told(&finished))
        }
        _ => println!(rt; "no such call"),
    }
}

// Tells what each call answers.
fn call_all<R: Wait>(
    memory: &mut Memory,
    rt: &impl Print,
    crew: &mut PlainCrew<R>,
    calls: &str,
) -> io::Result<()>
    ensures { SameHands crew.old crew.new }
{
    for line in calls.lines() {
        print!(rt; "  {line}: ")?;
        call(memory, rt, crew, Step::read(line))?;
    }
    Ok(())
}

/// Tells what is left of a crew.
pub fn tell_left(rt: &impl Print, left: &mut Leftover<PlainDuty>) -> io::Result<()> {
    for _job in 0..=MOST_PLACES {
        let finished = left.next();
        println!(rt; "  left: {}", Told(&finished))?;
        if finished.is_none() {
            return Ok(());
        }
    }
    Ok(())
}

/// Makes a crew, calls it, and stops it.
pub fn drive<R: Print + Wait + Copy, P: Spawner<Hand<PlainDuty>>>(
    memory: &mut Memory,
    rt: R,
    jobs: u32,
    hands: u8,
    spawner: &mut P,
    calls: &str,
) -> io::Result<()>
    requires none { P.hands_out spawner.old ≡ [] }
{
    if jobs == 0 || MOST_PLACES < jobs || MOST_HANDS < hands {
        return println!(rt; "no such crew");
    }
    let duty = Arc::new(memory.alloc(), PlainDuty)?;
    let Ok(mut crew) = Crew::start(memory, rt, duty, jobs, hands, spawner) else {
        return Err(no_memory());
    };
    let told = call_all(memory, &rt, &mut crew, calls);
    let mut left = crew.stop(spawner);
    tell_left(&rt, &mut left)?;
    told
}
