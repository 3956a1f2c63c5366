//! Why a call is refused.
use memory_count::NoMemory;
use message_buffer::MsgBuf;
use rpc_base::SessionState;
use std::error::Error;
use std::fmt;

/// Why a call is refused: the first of these that holds.
#[derive(Clone, Copy, Debug, PartialEq, Eq)]
pub enum AskError {
    /// Its request has more than 1,048,576 bytes.
    TooLarge { len: u32 },
    NotConnected { state: SessionState },
    NoMemory,
}

impl fmt::Display for AskError {
    fn fmt<W: fmt::Write>(&self, f: &mut fmt::Formatter<W>) -> fmt::Result {
        match self {
            AskError::TooLarge { .. } => f.write_str("the request is too large"),
            AskError::NotConnected { .. } => f.write_str("the session isn't connected"),
            AskError::NoMemory => write!(f, "{}", NoMemory),
        }
    }
}

impl Error for AskError {}

/// A call that was refused, with its buffers.
#[derive(Debug, Drop)]
pub struct Refused {
    pub why: AskError,
    pub req: MsgBuf,
    pub resp: MsgBuf,
}

impl fmt::Display for Refused {
    fn fmt<W: fmt::Write>(&self, f: &mut fmt::Formatter<W>) -> fmt::Result {
        write!(f, "{}", self.why)
    }
}

impl Error for Refused {}
