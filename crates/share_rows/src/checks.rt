//! What a row compares.
use std::fmt;

/// What isn't as a row expects.
#[derive(Clone, Copy)]
pub enum Differs {
    /// There was no memory for the row.
    Memory,
    /// Whether a try gave a buffer.
    Try,
    /// The place or the generation of a loan.
    Loan,
    /// The capacity or the length of a buffer.
    Buffer,
    /// Whether a fan was opened.
    Open,
    /// What a reading shows, or what a fan gave.
    Bytes,
    /// The handle of a job.
    Handle,
    /// What a desk answered to bytes for a job.
    Fits,
    /// What a desk gave as finished.
    Finished,
    /// What a call of an endpoint answered.
    Answer,
    /// What an endpoint noted.
    Facts,
    /// How often a buffer was borrowed, used and given back.
    Times,
}

impl fmt::Display for Differs {
    fn fmt<W: fmt::Write>(&self, f: &mut fmt::Formatter<W>) -> fmt::Result {
        f.write_str(match self {
            Differs::Memory => "no memory",
            Differs::Try => "a try answered something else",
            Differs::Loan => "another loan",
            Differs::Buffer => "another buffer",
            Differs::Open => "a fan that wasn't opened",
            Differs::Bytes => "other bytes",
            Differs::Handle => "another handle",
            Differs::Fits => "other bytes were taken as the answer",
            Differs::Finished => "another finished job",
            Differs::Answer => "a call answered something else",
            Differs::Facts => "other facts",
            Differs::Times => "another number of loans",
        })
    }
}

/// The checks of a row, which keep the first thing that isn't as expected.
#[derive(Clone, Copy)]
pub struct Checks {
    first: Option<Differs>,
}

impl Checks {
    pub fn new() -> Checks {
        Checks { first: None }
    }

    /// The first thing that wasn't as expected.
    pub fn first(&self) -> Option<Differs> {
        self.first
    }

    /// Where this doesn't hold, that differs.
    pub fn expect(&mut self, holds: bool, differs: Differs) {
        if !holds && self.first.is_none() {
            self.first = Some(differs);
        }
    }

    /// That differs.
    pub fn miss(&mut self, differs: Differs) {
        self.expect(false, differs);
    }

    /// What another row's checks found counts here too.
    pub fn take_in(&mut self, other: Checks) {
        if let Some(differs) = other.first {
            self.miss(differs);
        }
    }
}
