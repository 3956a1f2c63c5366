//! Why a session is refused, or can't be closed.
use rpc_base::{NoMemory, SessionState};
use std::error::Error;
use std::fmt;

/// Why no session is opened or paired: the first of these that holds.
#[derive(Clone, Copy, Debug, PartialEq, Eq)]
pub enum ConnectError {
    /// 65,535 numbers were used.
    NumbersSpent,
    /// The credits of the live sessions, with those wanted, would exceed the ring.
    RingFull {
        shares: u32,
        credits: u32,
        ring: u32,
    },
    NoMemory,
}

impl fmt::Display for ConnectError {
    fn fmt<W: fmt::Write>(&self, f: &mut fmt::Formatter<W>) -> fmt::Result {
        match self {
            ConnectError::NumbersSpent => f.write_str("the numbers of sessions are spent"),
            ConnectError::RingFull { .. } => f.write_str("the ring has no room for the credits"),
            ConnectError::NoMemory => write!(f, "{}", NoMemory),
        }
    }
}

impl Error for ConnectError {}

/// Why a session isn't closed: the first of these that holds.
#[derive(Clone, Copy, Debug, PartialEq, Eq)]
pub enum CloseError {
    /// It is neither Connected nor Spent.
    NotConnected { state: SessionState },
    /// So many calls are pending.
    Busy { calls: u64 },
}

impl fmt::Display for CloseError {
    fn fmt<W: fmt::Write>(&self, f: &mut fmt::Formatter<W>) -> fmt::Result {
        match self {
            CloseError::NotConnected { .. } => f.write_str("the session isn't connected"),
            CloseError::Busy { .. } => f.write_str("calls of the session are pending"),
        }
    }
}

impl Error for CloseError {}
