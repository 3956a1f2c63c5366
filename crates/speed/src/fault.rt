//! Why a run ends before its time.
use endpoint_loop::LinkFault;
use memory_count::NoMemory;
use std::fmt;

/// Why a run ended before its time.
#[derive(Clone, Copy, PartialEq, Eq)]
pub enum Fault {
    /// The words aren't those that are wanted, or a number isn't in its range.
    Words,
    /// No session came about.
    NoServer,
    /// A session lost its server.
    Lost,
    /// Not all calls of a row ended well.
    Calls,
    Link,
    NoMemory,
    /// What was to be told couldn't be written.
    Write,
}

impl Fault {
    /// The exit code.
    pub fn code(&self) -> u8 {
        match self {
            Fault::Words => 1,
            Fault::NoServer => 2,
            Fault::Lost => 3,
            Fault::Link => 4,
            Fault::NoMemory => 5,
            Fault::Write => 6,
            Fault::Calls => 7,
        }
    }
}

impl fmt::Display for Fault {
    fn fmt<W: fmt::Write>(&self, f: &mut fmt::Formatter<W>) -> fmt::Result {
        f.write_str(match self {
            Fault::Words => "these words aren't understood",
            Fault::NoServer => "no server answers there",
            Fault::Lost => "a session lost its server",
            Fault::Link => "the link failed",
            Fault::NoMemory => "out of memory",
            Fault::Write => "what was to be told couldn't be written",
            Fault::Calls => "not all calls ended well",
        })
    }
}

impl From<NoMemory> for Fault {
    fn from(_wanting: NoMemory) -> Fault {
        Fault::NoMemory
    }
}

impl From<LinkFault> for Fault {
    fn from(_fault: LinkFault) -> Fault {
        Fault::Link
    }
}
