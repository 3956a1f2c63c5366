//! The word of a place: `PHASES * generation + phase`, and 0 for a place that was never offered.

/// A word has two low bits for the phase.
pub const PHASES: u64 = 4;

/// The phase of a job that waits for a hand.
pub const READY: u64 = 1;

/// The phase of a job that a hand has claimed.
pub const CLAIMED: u64 = 2;

/// The phase of a job that is finished, collected or taken back.
pub const OVER: u64 = 3;

/// A place is offered less often.
pub const MOST_OFFERS: u64 = 1 << 61;

/// A board has no more places.
pub const MOST_PLACES: u32 = 1_024;
