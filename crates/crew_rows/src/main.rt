//! Crews of workers. Standard input has rows: a line `# ..` tells what the row shows, the next one
//! makes a crew, and each further line is a call of it. They are told with what each call answers,
//! and at the end with what is left once the crew is stopped. A further row costs no proof. Then it
//! is told what threads do with the jobs of a board and of a crew: one ticket is claimed once, four
//! threads claim the same thousand tickets, and two hands work at once.
//!
//! ```text
//! serial JOBS HANDS     a crew whose hands are all refused
//! kept JOBS             a crew of one hand, which a test keeps
//! threads JOBS HANDS    a crew whose hands are on threads
//! give TEXT             gives a job that turns a text of two letters round
//! take, full            as the crew has them
//! await                 takes, until a job is done
//! step                  lets the kept hand work a ticket
//! ```
#![tactic(auto)]

ghost use Rattle.std.specs.Prelude.{◌≡◌, []};
ghost use Rattle.worker_crew.specs.Hands.{name_of};
ghost use Rattle.worker_crew.specs.Launching.{Launched};

mod boards;
mod claims;
mod crews;
mod gate;
mod jobs;
mod kept;
mod step;

use crate::step::Step;
use memory_count::Memory;
use rpc_outside::PlainDuty;
use std::io;
use std::io::Read;
use std::sync::Wait;
use std::thread::Threads;
use worker_crew::{Child, Hand, Launcher, SerialSpawner, Spawner, ThreadSpawner, launch};

// Makes the crew that the first line names, and calls it as the lines behind it say. Hands on
// threads are started by the spawner.
fn drive<R: Print + Wait + Copy, P: Spawner<Hand<PlainDuty>>>(
    memory: &mut Memory,
    rt: R,
    first: &str,
    calls: &str,
    threads: &mut P,
) -> io::Result<()>
    requires none { P.hands_out threads.old ≡ [] }
{
    let made = Step::read(first);
    let (jobs, hands) = (made.long(0), made.byte(1));
    match made.name {
        "serial" => {
            let mut spawner = SerialSpawner::new();
            crews::drive(memory, rt, jobs, hands, &mut spawner, calls)?;
            println!(rt; "  {} hands refused", spawner.refused())
        }
        "kept" => kept::drive(memory, rt, jobs, calls),
        "threads" => crews::drive(memory, rt, jobs, hands, threads, calls),
        _ => println!(rt; "no such crew"),
    }
}

// A row: what it shows, the crew, and the calls.
fn row<R: Print + Wait + Copy, P: Spawner<Hand<PlainDuty>>>(
    memory: &mut Memory,
    rt: R,
    text: &str,
    threads: &mut P,
) -> io::Result<()>
    requires none { P.hands_out threads.old ≡ [] }
{
    let (title, rest) = text.split_once('\n').unwrap_or((text, ""));
    let (first, calls) = rest.split_once('\n').unwrap_or((rest, ""));
    println!(rt; "# {title}")?;
    println!(rt; "{first}")?;
    drive(memory, rt, first, calls, threads)
}

// What threads do with jobs.
fn tell_threads<R: Print + Threads + Wait + Copy + Send + Sync + 'static>(
    memory: &mut Memory,
    rt: R,
) -> io::Result<()> {
    println!(rt; "a ticket is claimed once")?;
    boards::one_ticket(memory, &rt)?;
    println!(rt; "four threads claim the same tickets")?;
    claims::four_threads(memory, &rt)?;
    println!(rt; "a job waits in its handler until another was answered")?;
    gate::two_hands(memory, rt)
}

fn main(rt: HostRuntime) -> io::Result<()> {
    let alloc = rt.alloc();
    let mut memory = Memory::new(alloc);
    let mut text = String::new(alloc);
    rt.stdin().read_to_string(&mut text)?;
    for text in text.as_str().split("# ").skip(1) {
        let launcher: Launcher = Box::new(
            alloc,
            move |hand: Hand<PlainDuty>| -> Result<Child, Hand<PlainDuty>>
                ensures { Launched (name_of hand) result }
            { launch(rt, alloc, hand) },
        )?;
        let mut threads = ThreadSpawner::new(rt, alloc, launcher);
        row(&mut memory, rt, text, &mut threads)?;
    }
    tell_threads(&mut memory, rt)
}
