//! What an endpoint notes that a load wants to know.
ghost use Rattle.std.specs.Prelude.{◌<◌, None, true};

use rpc_base::{DropReason, Event, Who};
use rpc_outside::Recorder;

/// How many reasons there are for which a packet is dropped.
pub const REASONS: usize = 15;

/// Their names, in order.
const NAMES: [&str; REASONS] = [
    "stale_life",
    "no_session",
    "wrong_peer",
    "old",
    "not_first",
    "working",
    "unserved",
    "jobs_full",
    "no_memory",
    "mismatch",
    "ahead",
    "beyond",
    "no_call",
    "past",
    "queued",
];

/// A recorder that keeps no facts, and counts the calls that were rolled back, and the packets that
/// were dropped by reason, that had no room, and that were no packets. Each count stops at
/// 2^64 - 1.
#[derive(Clone, Copy, Debug, PartialEq, Eq)]
pub struct Watch {
    pub rolled: u64,
    pub overflowed: u64,
    pub bad: u64,
    pub dropped: [u64; REASONS],
}

// Where a reason stands among the counts.
fn place_of(reason: DropReason) -> usize
    ensures { result < REASONS }
{
    reason as usize
}

impl Watch {
    /// Nothing was noted.
    pub fn new() -> Watch {
        Watch {
            rolled: 0,
            overflowed: 0,
            bad: 0,
            dropped: [0; REASONS],
        }
    }

    /// How many packets were dropped for each reason, by its name.
    pub fn reasons(&self) -> [(&'static str, u64); REASONS] {
        let mut told = [("", 0); REASONS];
        for at in 0..REASONS {
            told[at] = (NAMES[at], self.dropped[at]);
        }
        told
    }

    fn drop_one(&mut self, reason: DropReason) {
        let place = place_of(reason);
        self.dropped[place] = self.dropped[place].saturating_add(1);
    }
}

impl Recorder for Watch {
    ghost log = { λ _. record { facts = None; whole = true } };

    fn note(&mut self, _who: Who, event: Event, _first: &[u8], _second: &[u8]) {
        match event {
            Event::Rolled { .. } => self.rolled = self.rolled.saturating_add(1),
            Event::Overflowed { .. } => self.overflowed = self.overflowed.saturating_add(1),
            Event::Bad { .. } => self.bad = self.bad.saturating_add(1),
            Event::Dropped { reason } => self.drop_one(reason),
            _ => {}
        }
    }
}
