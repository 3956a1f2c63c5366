//! Jobs of the plain duty, and how rows write them.
ghost use Rattle.std.specs.Prelude.{IfOk};
ghost use Rattle.memory_count.specs.Faults.{HasCause};
ghost use Rattle.rpc_outside.specs.PlainAnswer.{background_answer};
ghost use Rattle.worker_crew.specs.Jobs.{HasRoom};

use memory_count::{Memory, NoMemory};
use message_buffer::MsgBuf;
use rpc_base::{RequestNo, SessionNo};
use std::fmt::Display;
use std::{fmt, io};
use worker_board::Parcel;
use worker_crew::Finished;

/// The type by which a worker turns the bytes round.
const REVERSE: u8 = 130;

/// An error of want of memory.
pub fn no_memory() -> io::Error {
    io::Error::from(io::ErrorKind::OutOfMemory)
}

/// A job that turns two bytes round.
pub fn reverse_of(memory: &mut Memory, bytes: [u8; 2]) -> Result<Parcel, NoMemory>
    ensures room { IfOk result (HasRoom background_answer) }
    ensures cause { HasCause memory.old memory.new result }
{
    let mut ask = MsgBuf::new(memory, 2)?;
    ask.set_len(2);
    ask.write(0, &bytes);
    let _asked = ask.bytes().len();
    let mut out = MsgBuf::new(memory, 2)?;
    out.set_len(2);
    Ok(Parcel {
        session: SessionNo(0),
        request: RequestNo::of(0, 0),
        req_type: REVERSE,
        ask,
        out,
    })
}

/// The text of a message.
pub fn text_of(message: &MsgBuf) -> &str {
    match str::from_utf8(message.bytes()) {
        Ok(text) => text,
        Err(_) => "?",
    }
}

/// A job that came back, if one did, as rows write it.
#[derive(Clone, Copy)]
pub struct Told<'a>(pub &'a Option<Finished>);

impl<'a> Display for Told<'a> {
    fn fmt<W: fmt::Write>(&self, f: &mut fmt::Formatter<W>) -> fmt::Result {
        let Some(finished) = self.0 else {
            return f.write_str("none");
        };
        let asked = text_of(&finished.parcel.ask);
        if finished.worked {
            write!(f, "{asked} worked, {}", text_of(&finished.parcel.out))
        } else {
            write!(f, "{asked} unworked")
        }
    }
}
