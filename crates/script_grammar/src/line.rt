//! The commands of a script, and the lines that they stand on.
use rpc_base::{NodeId, Octets, SessionNo};

/// The bytes that a call sends.
#[derive(Debug, Drop)]
pub enum AskBytes {
    /// These bytes, at most 2,097,152: `-` for none, else hexadecimal digits.
    Given(Octets),
    /// That many bytes, at most 2,097,152, of which byte j is `j mod 256`: `*N`.
    Count(u32),
}

/// One command of a script, with its numbers in range.
#[derive(Debug, Drop)]
pub enum Command {
    /// Makes a node whose receive ring has `ring` places, 32 to 4,096.
    Node {
        ring: u32,
    },
    /// Gives `a` a client session with `b` at once; 1 to 256 credits.
    Pair {
        a: NodeId,
        b: NodeId,
        credits: u16,
    },
    /// Has `a` connect to `b`; 1 to 256 credits.
    Connect {
        a: NodeId,
        b: NodeId,
        credits: u16,
    },
    /// Has the node close its client session.
    Disconnect {
        node: NodeId,
        session: SessionNo,
    },
    /// Sets the rate of a client session in bytes per millisecond, 0 for none.
    Rate {
        node: NodeId,
        session: SessionNo,
        rate: u32,
    },
    /// Asks a call of a client session; `room` is the capacity of its response buffer in bytes, at
    /// most 1,048,576.
    Call {
        node: NodeId,
        session: SessionNo,
        req_type: u8,
        ask: AskBytes,
        room: u32,
    },
    /// Polls the node at the clock of the world.
    Poll {
        node: NodeId,
    },
    /// Takes that copy of those in flight, counted from 0 in their order, and delivers it.
    Arrive {
        copy: u32,
    },
    /// Takes that copy out of flight; nobody gets it.
    Lose {
        copy: u32,
    },
    /// Puts one more of that copy into flight, behind all others.
    Repeat {
        copy: u32,
    },
    /// Adds to the clock of the world, in microseconds, at most 1,000,000,000.
    Tick {
        by: u32,
    },
    /// Works that waiting job of the node, counted from 0 in the order of giving.
    Work {
        node: NodeId,
        job: u32,
    },
    /// Carries, works and polls until nothing happens any more, in at most that many rounds, 1 to
    /// 1,000,000.
    Settle {
        rounds: u32,
    },
    /// Makes a node's endpoint anew, in its next life.
    Restart {
        node: NodeId,
    },
}

/// A command and the line on which it stands, lines being counted from 1.
#[derive(Debug, Drop)]
pub struct Line {
    pub number: u32,
    pub command: Command,
}
