//! An endpoint under datagrams that no honest peer sends.
use crate::act::{Act, read_act};
use crate::bench::Made;
use crate::buffers::asking;
use crate::differs::Differs;
use crate::makers::{Plain, plain_server};
use crate::told::lines_of;
use endpoint_loop::AskError;
use message_buffer::{MOST_CAPACITY, MsgBuf};
use rpc_base::{Event, NodeId, SessionNo, Who};
use rpc_outside::{MemRecorder, Recorder};
use session_mgmt::ConnectError;
use std::io;
use std::io::Read;

/// The endpoint's node.
const ME: Who = Who::Node(NodeId(1));

// Goes on but for want of memory; other refusals are told by their facts.
fn unless_wanting(made: Made) -> Result<(), Differs> {
    match made {
        Err(ConnectError::NoMemory) => Err(Differs::Memory),
        _ => Ok(()),
    }
}

fn ask(
    bench: &mut Plain,
    session: SessionNo,
    req_type: u8,
    bytes: &[u8],
    room: u32,
) -> Result<(), Differs> {
    if MOST_CAPACITY < room {
        return Err(Differs::Step);
    }
    let req = asking(&mut bench.memory, bytes)?;
    let resp = MsgBuf::new(&mut bench.memory, room)?;
    match bench.ask(session, req_type, req, resp, 0) {
        Err(refused) if refused.why == AskError::NoMemory => Err(Differs::Memory),
        _ => Ok(()),
    }
}

fn work(bench: &mut Plain, job: u32) {
    let event = match bench.endpoint.workers().work(job) {
        Some((session, request)) => Event::Worked { session, request },
        None => Event::Missed { number: job },
    };
    bench.recorder.note(ME, event, &[], &[]);
}

fn take(bench: &mut Plain, act: &Act) -> Result<(), Differs> {
    match act {
        Act::Server {
            peer,
            life,
            client,
            credits,
        } => unless_wanting(bench.pair_server(*peer, *life, *client, *credits)?),
        Act::Client {
            peer,
            life,
            server,
            credits,
        } => unless_wanting(bench.pair_client(*peer, *life, *server, *credits)?),
        Act::Connect { peer, credits } => unless_wanting(bench.connect(*peer, *credits)?),
        Act::Ask {
            session,
            req_type,
            bytes,
            room,
        } => ask(bench, *session, *req_type, bytes.as_slice(), *room),
        Act::Deliver { peer, bytes } => {
            let _delivery = bench.deliver(*peer, bytes.as_slice());
            Ok(())
        }
        Act::Work { job } => {
            work(bench, *job);
            Ok(())
        }
        Act::Poll { now } => match bench.poll(*now) {
            Ok(_turn) => Ok(()),
            Err(_fault) => Err(Differs::Turn),
        },
    }
}

// Takes a step, and tells what it noted, in the lines of a report.
fn noted(bench: &mut Plain, act: &Act) -> Result<String, Differs> {
    bench.recorder = MemRecorder::new(bench.memory.alloc());
    take(bench, act)?;
    lines_of(&mut bench.memory, &bench.recorder)
}

// Takes the steps of a row, and prints what each noted.
fn drive(rt: &impl Print, bench: &mut Plain, steps: &str) -> io::Result<()> {
    for line in steps.lines() {
        let Ok(read) = read_act(&mut bench.memory, line) else {
            return Err(Differs::Memory.into());
        };
        let Some(act) = read else {
            println!(rt; "no step: {line}")?;
            return Err(Differs::Step.into());
        };
        let facts = noted(bench, &act)?;
        print!(rt; "{facts}")?;
    }
    Ok(())
}

fn row(rt: &HostRuntime, text: &str) -> io::Result<()> {
    let (name, steps) = text.split_once('\n').unwrap_or((text, ""));
    println!(rt; "# {name}")?;
    let Ok(mut bench) = plain_server(rt.alloc()) else {
        return Err(Differs::Memory.into());
    };
    drive(rt, &mut bench, steps)
}

/// Takes the rows of standard input, each with an endpoint of its own.
pub fn take_rows(rt: &HostRuntime) -> io::Result<()> {
    let mut text = String::new(rt.alloc());
    rt.stdin().read_to_string(&mut text)?;
    for text in text.as_str().split("# ").skip(1) {
        row(rt, text)?;
    }
    Ok(())
}
