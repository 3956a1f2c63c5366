//! The program: it makes the real ends, calls the top call, and tells how that ended.
#![tactic(auto)]

ghost use Rattle.std.specs.Prelude.{◌≡◌, []};
ghost use Rattle.worker_crew.specs.Hands.{name_of};
ghost use Rattle.worker_crew.specs.Launching.{Launched};

mod ended;
mod losses;
mod telling;

use crate::ended::{Cause, Ended};
use crate::losses::LossRecord;
use crate::telling::{complain, tell};
use memory_count::Memory;
use rpc_outside::{IoSink, IoSource, Kept, PlainDuty, Source, SysClock};
use rpc_tools::{Status, run};
use std::alloc::AllocError;
use std::env;
use std::io::{self, BufWriter, Stdout, Write};
use std::process::ExitCode;
use std::rt::Env;
use std::sync::Wait;
use udp_link::UdpLink;
use worker_crew::{Child, Hand, Launcher, Spawner, ThreadSpawner, launch};

// The words after the program's name.
fn words_of(rt: &(impl Env + AllocGlobal)) -> io::Result<Vec<String>> {
    let mut words = Vec::new(rt.alloc());
    for word in env::args(rt)?.skip(1) {
        words.push(word).map_err(AllocError::from)?;
    }
    Ok(words)
}

// A load calls one server, and hears nobody else.
fn link_for<'a>(rt: &'a HostRuntime, words: &[String]) -> UdpLink<'a, HostRuntime> {
    match words.first() {
        Some(command) if command.as_str() == "load" => UdpLink::of_one(rt.alloc(), rt),
        _ => UdpLink::new(rt.alloc(), rt),
    }
}

// Makes the link and the recorder, and calls the top call over them and a sink.
fn run_linked<H: Wait + Drop, S: Source, P: Spawner<Hand<PlainDuty>>>(
    rt: &HostRuntime,
    waits: H,
    words: &[String],
    source: &mut S,
    sink: &mut IoSink<BufWriter<Stdout>>,
    spawner: &mut P,
) -> Ended
    requires none { P.hands_out spawner.old ≡ [] }
{
    let mut link = link_for(rt, words);
    let mut record = LossRecord::new();
    let status = run(
        &mut Memory::new(rt.alloc()),
        waits,
        words,
        source,
        sink,
        &mut link,
        &mut SysClock::new(rt),
        spawner,
        &mut record,
    );
    Ended {
        status,
        cause: Cause::of(status, link.trouble(), record.last()),
    }
}

// Makes the sink. The report goes out in large pieces.
fn run_words<H: Wait + Drop, S: Source, P: Spawner<Hand<PlainDuty>>>(
    rt: &HostRuntime,
    waits: H,
    words: &[String],
    source: &mut S,
    spawner: &mut P,
) -> Ended
    requires none { P.hands_out spawner.old ≡ [] }
{
    let Ok(writer) = BufWriter::new(rt.alloc(), rt.stdout()) else {
        return Ended::by(Status::NoMemory);
    };
    let mut sink = IoSink::new(writer);
    let ended = run_linked(rt, waits, words, source, &mut sink, spawner);
    // The writer holds the last piece back until it is flushed.
    match sink.into_writer().flush() {
        Ok(()) => ended,
        Err(error) if error.kind() == io::ErrorKind::BrokenPipe => Ended {
            status: Status::WriteFault,
            cause: Cause::Closed,
        },
        Err(_) => Ended::by(Status::WriteFault),
    }
}

// Runs the program on its words, where they could be read.
fn run_read<H: Wait + Drop, S: Source, P: Spawner<Hand<PlainDuty>>>(
    rt: &HostRuntime,
    waits: H,
    words: &io::Result<Vec<String>>,
    source: &mut S,
    spawner: &mut P,
) -> Ended
    requires none { P.hands_out spawner.old ≡ [] }
{
    match words {
        Ok(words) => run_words(rt, waits, words.as_slice(), source, spawner),
        Err(error) if error.kind() == io::ErrorKind::OutOfMemory => { Ended::by(Status::NoMemory) }
        // A word that is no text is in no line of the grammar.
        Err(_) => Ended {
            status: Status::Usage,
            cause: Cause::NoText,
        },
    }
}

// Runs the program over a spawner that has no hand out.
fn run_over<H: Wait + Drop, P: Spawner<Hand<PlainDuty>>>(
    rt: &HostRuntime,
    waits: H,
    spawner: &mut P,
) -> ExitCode
    requires none { P.hands_out spawner.old ≡ [] }
{
    let mut source = Kept::new(rt.alloc(), IoSource::new(rt.stdin()));
    let words = words_of(rt);
    let ended = run_read(rt, waits, &words, &mut source, spawner);
    tell(rt, ended, &words, source.bytes());
    ExitCode::from(ended.status.code())
}

fn main(rt: HostRuntime) -> ExitCode {
    let alloc = rt.alloc();
    // Hands are started on threads of this program.
    let Ok(launcher) = Box::new(
        alloc,
        move |hand: Hand<PlainDuty>| -> Result<Child, Hand<PlainDuty>>
            ensures { Launched (name_of hand) result }
        { launch(rt, alloc, hand) },
    ) else {
        complain(&rt, Status::NoMemory, None);
        return ExitCode::from(Status::NoMemory.code());
    };
    let launcher: Launcher = launcher;
    let mut spawner = ThreadSpawner::new(rt, alloc, launcher);
    run_over(&rt, rt, &mut spawner)
}
