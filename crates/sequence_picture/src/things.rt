//! What is drawn, as plain data. Facts are named by their places in the history, from 0.

/// Where a copy of a datagram comes from: the fact that sent the datagram, and the one that put
/// this copy into flight, which is another where it is a repeat.
#[derive(Clone, Copy, Debug, PartialEq, Eq)]
pub struct Track {
    pub sent: usize,
    pub put: usize,
}

/// How a copy ended, with the place of the fact that says so.
#[derive(Clone, Copy, Debug, PartialEq, Eq)]
pub enum End {
    /// It came to its node.
    Came(usize),
    /// The network lost it.
    Lost(usize),
    /// The network delivered it, and the next fact is no arrival of it: so a report may tell, but
    /// no run of nodes.
    Untold(usize),
    /// It is in flight when the history ends.
    Flying,
}

/// A thing that is drawn.
#[derive(Clone, Copy, Debug, PartialEq, Eq)]
pub enum Drawn {
    /// A copy of a datagram: a line from node to node.
    Copy(Track, End),
    /// The fact at this place, at its node; where the clock went on, across all nodes.
    Mark(usize),
}
