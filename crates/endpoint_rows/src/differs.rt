//! What differs from what a row expects.
use memory_count::NoMemory;
use std::{fmt, io};

/// The first thing of a row that isn't as expected.
#[derive(Drop)]
pub enum Differs {
    /// There was no memory for the row.
    Memory,
    /// A number of a step is outside its range.
    Step,
    /// What a poll answered.
    Turn,
    /// What a call of the endpoint answered.
    Answer,
    /// What the endpoint tells of itself.
    State,
    /// What the link was given to send.
    Sent,
    /// What the continuation was given.
    Done,
    /// A buffer that came back.
    Buffer,
    /// The facts that were noted, of which this is the report.
    Facts(String),
}

impl fmt::Display for Differs {
    fn fmt<W: fmt::Write>(&self, f: &mut fmt::Formatter<W>) -> fmt::Result {
        match self {
            Differs::Memory => f.write_str("no memory"),
            Differs::Step => f.write_str("no step"),
            Differs::Turn => f.write_str("a poll answered something else"),
            Differs::Answer => f.write_str("a call answered something else"),
            Differs::State => f.write_str("the endpoint tells something else"),
            Differs::Sent => f.write_str("something else was sent"),
            Differs::Done => f.write_str("other calls ended"),
            Differs::Buffer => f.write_str("another buffer came back"),
            Differs::Facts(text) => write!(f, "other facts\n{text}"),
        }
    }
}

impl From<NoMemory> for Differs {
    fn from(_error: NoMemory) -> Self {
        Differs::Memory
    }
}

impl From<Differs> for io::Error {
    fn from(differs: Differs) -> Self {
        io::Error::from(match differs {
            Differs::Memory => io::ErrorKind::OutOfMemory,
            Differs::Step => io::ErrorKind::InvalidInput,
            _ => io::ErrorKind::InvalidData,
        })
    }
}

/// Goes on where this holds; otherwise that is what differs.
pub fn expect(holds: bool, differs: Differs) -> Result<(), Differs> {
    if holds { Ok(()) } else { Err(differs) }
}
