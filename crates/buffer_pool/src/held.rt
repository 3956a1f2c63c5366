//! Why a buffer can't be had.
use std::error::Error;
use std::fmt;

/// The buffer of a place is still referred to.
#[derive(Clone, Copy, Debug, PartialEq, Eq)]
pub struct Held {
    /// How many references there are, above 0.
    pub refs: u32,
}

impl fmt::Display for Held {
    fn fmt<W: fmt::Write>(&self, f: &mut fmt::Formatter<W>) -> fmt::Result {
        write!(f, "the buffer has {} references", self.refs)
    }
}

impl Error for Held {}
