//! What a user reads of a report that fails.
use rpc_base::NodeId;
use std::error::Error;
use std::fmt;

/// Which claim a fact breaks, so that no history that begins so is lawful.
#[derive(Clone, Copy, Debug, PartialEq, Eq)]
pub enum Wrong {
    /// The network notes no such event.
    Net,
    /// What begins, runs or ends is no call, or not with the bytes of its call.
    Call,
    /// A packet of a call finds a full ring, and nothing came yet that may bring this about.
    Ring,
    /// The facts of this node are no run of a node.
    Run(NodeId),
}

impl fmt::Display for Wrong {
    fn fmt<W: fmt::Write>(&self, f: &mut fmt::Formatter<W>) -> fmt::Result {
        match self {
            Wrong::Net => f.write_str("the network notes no such event"),
            Wrong::Call => f.write_str(
                "what begins, runs or ends by then is no call, or not with the bytes of its call",
            ),
            Wrong::Ring => f.write_str(
                "a packet of a call finds a full ring before a repeat, a rollback and a restart",
            ),
            Wrong::Run(node) => {
                let number = node.0;
                write!(
                    f,
                    "node {number} doesn't do that: its facts are no run of a node"
                )
            }
        }
    }
}

impl Error for Wrong {}

/// Why a report fails at its line.
#[derive(Clone, Copy, Debug, PartialEq, Eq)]
pub enum Fault {
    /// It is no line of a report, or not the one that is due.
    Unspelled,
    /// A claim is broken there, or in a poll that ends there.
    Unlawful(Wrong),
    /// A node is in the midst of a poll at the end.
    Unended,
}

impl fmt::Display for Fault {
    fn fmt<W: fmt::Write>(&self, f: &mut fmt::Formatter<W>) -> fmt::Result {
        match self {
            Fault::Unspelled => f.write_str(
                "it is no line of a report, or not the one that is due",
            ),
            Fault::Unlawful(wrong) => wrong.fmt(f),
            Fault::Unended => f.write_str("a node is in the midst of a poll at the end"),
        }
    }
}

impl Error for Fault {}
