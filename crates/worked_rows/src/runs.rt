//! The program is run on a line of words.
use crate::outside::{Fault, LINK_ROOM, Outside};
use memory_count::Memory;
use rpc_base::Peer;
use rpc_outside::{MemLink, NoRecord, StepClock};
use rpc_tools::{Status, run};
use std::alloc::{AllocError, Global};
use std::io;
use std::sync::Wait;

/// The request to connect a client's first session, with 32 credits.
const REQUEST: &[u8] = b"\xe2\x04\0\0\xff\xff\0\x20\0\0\0\0\x01\0\0\0\0\0\0\0";

/// What came of a run.
#[derive(Drop)]
pub struct Ran {
    pub status: Status,
    /// What was written.
    pub text: String,
    /// How many requests to connect were sent; none where anything else was sent.
    pub requests: Option<u32>,
    /// How many hands were offered to the spawner, which hands each back.
    pub hands: u64,
}

fn words(alloc: Global, line: &str) -> Result<Vec<String>, AllocError> {
    let mut words = Vec::new(alloc);
    for word in line.split_whitespace() {
        words.push(String::from_str(alloc, word)?)?;
    }
    Ok(words)
}

fn run_words<H: Wait + Drop>(
    rt: H,
    alloc: Global,
    words: &[String],
    step: u64,
    outside: &mut Outside,
) -> Status {
    run(
        &mut Memory::new(alloc),
        rt,
        words,
        &mut outside.source,
        &mut outside.sink,
        &mut outside.link,
        &mut StepClock::new(0, step),
        &mut outside.spawner,
        &mut NoRecord,
    )
}

fn text_of(alloc: Global, bytes: &[u8]) -> io::Result<String> {
    match str::from_utf8(bytes) {
        Ok(text) => Ok(String::from_str(alloc, text)?),
        Err(_) => Err(io::Error::from(io::ErrorKind::InvalidData)),
    }
}

// How many requests to connect a link sent, where it sent nothing else.
fn requests_of(link: &MemLink) -> Option<u32> {
    for i in 0..LINK_ROOM {
        let sent = link.sent(i);
        if sent.is_none() {
            return Some(i);
        }
        let is_request = sent == Some((Peer(0), REQUEST));
        if !is_request {
            return None;
        }
    }
    None
}

fn what_came(alloc: Global, status: Status, outside: &Outside) -> io::Result<Ran> {
    Ok(Ran {
        status,
        text: text_of(alloc, outside.sink.bytes())?,
        requests: requests_of(&outside.link),
        hands: outside.spawner.refused(),
    })
}

/// Runs the program from the moment 0 on, over a source with these bytes, an outside of which this
/// call fails, and a clock that goes on so far at each look, in microseconds.
pub fn run_line<H: AllocGlobal + Wait + Copy + Drop>(
    rt: H,
    line: &str,
    bytes: &[u8],
    fault: Option<Fault>,
    step: u64,
) -> io::Result<Ran> {
    let alloc = rt.alloc();
    let words = words(alloc, line)?;
    let mut outside = Outside::new(alloc, bytes, fault)?;
    let status = run_words(rt, alloc, words.as_slice(), step, &mut outside);
    what_came(alloc, status, &outside)
}

/// What the program writes on a line of words over an outside that never fails; an error where the
/// run doesn't end well.
pub fn written_by<H: AllocGlobal + Wait + Copy + Drop>(
    rt: H,
    line: &str,
    bytes: &[u8],
) -> io::Result<String> {
    let Ran { status, text, .. } = run_line(rt, line, bytes, None, 0)?;
    match status {
        Status::Done => Ok(text),
        _ => Err(io::Error::from(io::ErrorKind::InvalidInput)),
    }
}
