//! The few shapes that the lines of a report have.
use rpc_base::{DropReason, Owner, SessionState};

/// A word or more, with the spaces around it, and a number after it.
pub type Pair = (&'static str, u64);

/// The words and numbers of a line, without its bytes.
#[derive(Clone, Copy)]
pub enum Shape {
    Word(&'static str),
    One(Pair),
    Two(Pair, Pair),
    Three(Pair, Pair, Pair),
    Four(Pair, Pair, Pair, Pair),
    Five(Pair, Pair, Pair, Pair, Pair),
    /// A word ends the line.
    Ending(Pair, &'static str),
    /// The state of a session ends the line.
    State(Pair, SessionState),
    /// A packet was dropped for this reason.
    Reason(DropReason),
    /// An entry of a queue: whose packet it is, and its number.
    Entry(&'static str, Owner, u64),
    /// A datagram to a peer: whose packet it is, and its number.
    Datagram(u64, Owner, u64),
}

/// Which bytes of its fact a line ends with.
#[derive(Clone, Copy)]
pub enum Tail {
    Nothing,
    First,
    Both,
}
