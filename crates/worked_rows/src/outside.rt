//! What a row is run over.
use memory_count::{Memory, NoMemory};
use rpc_outside::{MemLink, MemSink, MemSource};
use std::alloc::{AllocError, Global};
use std::io;
use worker_crew::SerialSpawner;

/// More bytes than a row writes.
const ROOM: u32 = 1 << 25;

/// More datagrams than a row sends.
pub const LINK_ROOM: u32 = 32;

/// The kinds of calls of an outside that may fail.
#[derive(Clone, Copy, PartialEq, Eq)]
pub enum Kind {
    Read,
    Write,
    Link,
}

/// A call that fails: its kind, and its number among those of its kind, from 0 on.
#[derive(Clone, Copy)]
pub struct Fault {
    pub kind: Kind,
    pub call: u64,
}

/// A source, a sink and a link in memory, and a spawner that starts no hand.
pub struct Outside {
    pub source: MemSource,
    pub sink: MemSink,
    pub link: MemLink,
    pub spawner: SerialSpawner,
}

// Written by hand, so that whoever lets one go makes a call, and proves nothing of its parts.
impl Drop for Outside {
    fn drop(self) {
        let Outside {
            source: _source,
            sink: _sink,
            link: _link,
            spawner: _spawner,
        } = self;
    }
}

fn no_memory(_none: NoMemory) -> io::Error {
    io::Error::from(io::ErrorKind::OutOfMemory)
}

// The numbers of the calls of this kind that fail.
fn fails(alloc: Global, fault: Option<Fault>, kind: Kind) -> Result<Vec<u64>, AllocError> {
    match fault {
        Some(fault) if fault.kind == kind => Vec::from_slice(alloc, &[fault.call]),
        _ => Ok(Vec::new(alloc)),
    }
}

fn source(alloc: Global, bytes: &[u8], fault: Option<Fault>) -> Result<MemSource, AllocError> {
    let fails = fails(alloc, fault, Kind::Read)?;
    Ok(MemSource::new(Vec::from_slice(alloc, bytes)?, fails))
}

fn sink(alloc: Global, fault: Option<Fault>) -> io::Result<MemSink> {
    let fails = fails(alloc, fault, Kind::Write)?;
    MemSink::new(&mut Memory::new(alloc), ROOM, fails).map_err(no_memory)
}

// A link to which nothing comes.
fn link(alloc: Global, fault: Option<Fault>) -> io::Result<MemLink> {
    let (fails, none) = (fails(alloc, fault, Kind::Link)?, Vec::new(alloc));
    let arrivals = Vec::new(alloc);
    MemLink::new(&mut Memory::new(alloc), arrivals, LINK_ROOM, fails, none).map_err(no_memory)
}

impl Outside {
    /// An outside whose source has these bytes, and of which this call fails.
    pub fn new(alloc: Global, bytes: &[u8], fault: Option<Fault>) -> io::Result<Outside> {
        let sink = sink(alloc, fault)?;
        let source = source(alloc, bytes, fault)?;
        let link = link(alloc, fault)?;
        Ok(Outside {
            source,
            sink,
            link,
            spawner: SerialSpawner::new(),
        })
    }
}
