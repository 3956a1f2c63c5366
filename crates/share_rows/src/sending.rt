//! A fan whose bytes three endpoints ask, each on a thread of its own.
ghost use Rattle.std.specs.Prelude.{IfSome};
ghost use Rattle.fan_buffer.specs.Readings.{IsReadingOf};

use crate::caller::{FIRST, PlainEndpoint, plain_endpoint};
use crate::checks::{Checks, Differs};
use fan_buffer::{Fan, Reading};
use fan_calls::ask_fan;
use memory_count::Memory;
use message_buffer::MsgBuf;
use rpc_base::{CallNo, Event, NodeId, Peer, SessionNo};
use rpc_outside::MemRecorder;
use std::alloc::Global;
use std::thread;
use std::thread::Threads;

/// So often a fan that isn't opened is tried again.
const TRIES: u32 = 1_000;

/// The type that is asked, and the room for the answer, in bytes.
const ECHO: u8 = 1;

const ROOM: u32 = 2;

/// A fan of the bytes `ab`.
fn fan_of_two(alloc: Global) -> Result<Fan, Differs> {
    let Ok(buffer) = MsgBuf::of(&mut Memory::new(alloc), b"ab") else {
        return Err(Differs::Memory);
    };
    match Fan::new(buffer) {
        Ok(fan) => Ok(fan),
        Err(_buffer) => Err(Differs::Open),
    }
}

/// Opens a right to read, by as many tries as are wanted.
fn open_one(fan: &Fan) -> Option<Reading<'_>>
    ensures { IfSome result (λ reading. IsReadingOf fan.now reading) }
{
    for _try in 0..TRIES {
        if let Some(reading) = fan.open() {
            return Some(reading);
        }
    }
    None
}

/// Whether the last fact is that call 0 was asked on session 0 with the fan's bytes.
fn was_asked(recorder: &MemRecorder) -> bool {
    let Some(fact) = recorder.facts().last() else {
        return false;
    };
    let asked = matches!(
        fact.event,
        Event::Asked {
            call: CallNo(0),
            session: SessionNo(0),
            req_type: ECHO,
            room: ROOM,
        }
    );
    asked && fact.first.bytes() == b"ab".as_slice()
}

/// The endpoint asks the fan's bytes on a session of its own.
fn ask(memory: &mut Memory, endpoint: &mut PlainEndpoint, fan: &Fan, checks: &mut Checks) {
    let mut recorder = MemRecorder::new(memory.alloc());
    let paired = endpoint.pair_client(memory, Peer(1), FIRST, SessionNo(0), 1, &mut recorder);
    checks.expect(paired == Ok(SessionNo(0)), Differs::Answer);
    match open_one(fan) {
        Some(reading) => {
            let rec = &mut recorder;
            let asked = ask_fan(
                memory,
                endpoint,
                SessionNo(0),
                ECHO,
                fan,
                &reading,
                ROOM,
                0,
                rec,
            );
            fan.close(reading);
            checks.expect(asked == Ok(CallNo(0)), Differs::Answer);
            checks.expect(was_asked(&recorder), Differs::Facts);
        }
        None => checks.miss(Differs::Open),
    }
}

/// An endpoint of its own, on this thread.
fn work(alloc: Global, fan: &Fan) -> Checks {
    let mut checks = Checks::new();
    let mut memory = Memory::new(alloc);
    match plain_endpoint(&mut memory, NodeId(0)) {
        Ok(mut endpoint) => {
            ask(&mut memory, &mut endpoint, fan, &mut checks);
            let _workers = endpoint.into_workers();
        }
        Err(_) => checks.miss(Differs::Memory),
    }
    checks
}

fn three_work<R: Threads + Sync>(rt: &R, alloc: Global, fan: &Fan) -> Checks {
    let (one, (two, three)) = thread::join(
        rt,
        || work(alloc, fan),
        || thread::join(rt, || work(alloc, fan), || work(alloc, fan)),
    );
    let mut checks = one;
    checks.take_in(two);
    checks.take_in(three);
    checks
}

/// Three endpoints ask the bytes of one fan.
pub fn row<R: Threads + Sync>(rt: &R, alloc: Global) -> Checks {
    match fan_of_two(alloc) {
        Ok(fan) => three_work(rt, alloc, &fan),
        Err(differs) => {
            let mut checks = Checks::new();
            checks.miss(differs);
            checks
        }
    }
}
