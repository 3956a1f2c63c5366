//! The limits: those of the protocol, and those that an endpoint is made with.
ghost use Rattle.std.specs.Prelude.{◌≡◌, ℕ, ◌≤◌, ◌↔◌, IsTrue};
ghost use Rattle.rpc_base.specs.Limits.{Fits};

/// The bytes of a header.
pub const HEAD_BYTES: usize = 20;

/// The bytes of a message that one packet carries at most.
pub const PART_BYTES: u32 = 1_024;

/// The bytes of the largest datagram that a packet fills: a header and a part.
pub const MOST_DATAGRAM_BYTES: usize = 1_044;

/// The bytes of the largest message.
pub const MOST_MESSAGE_BYTES: u32 = 1_048_576;

/// The bytes of the largest buffer of a message, and so of the room for an answer.
pub const MOST_CAPACITY: u32 = 4_194_304;

/// The credits of a session, in packets: at least 1, and no more than these.
pub const MOST_CREDITS: u16 = 256;

/// An endpoint uses so many numbers of client sessions, and as many of server sessions, from 0 on.
/// The next number stands for none in a header.
pub const SESSION_NUMBERS: u16 = 65_535;

/// An endpoint knows its peers by so many numbers, from 0 on.
pub const PEERS: usize = 256;

/// No list of sessions is longer: their numbers have 16 bits.
pub const MOST_SESSIONS: usize = 65_536;

/// No more references to a place of a pool are counted.
pub const MOST_REFERENCES: u32 = 4_294_967_295;

/// A client session takes no more calls.
pub const MOST_CALLS: u64 = 1 << 45;

/// An endpoint gives no more background jobs.
pub const MOST_GIVEN: u64 = 1 << 61;

/// A receive ring has so many places at least.
pub const LEAST_RING: u32 = 32;

/// A receive ring has no more places.
pub const MOST_RING: u32 = 4_096;

/// No more background jobs may be out at one time; the fewest are 1.
pub const MOST_JOBS: u32 = 1_024;

/// The longest timeout, in microseconds; the shortest is 1.
pub const MOST_TIMEOUT: u64 = 60_000_000;

/// The places of a receive ring where nothing else is said.
pub const USUAL_RING: u32 = 1_024;

/// The background jobs that may be out at one time where nothing else is said.
pub const USUAL_JOBS: u32 = 64;

/// The timeout, in microseconds, where nothing else is said.
pub const USUAL_TIMEOUT: u64 = 5_000;

/// What an endpoint is made with.
#[derive(Clone, Copy, Debug, PartialEq, Eq)]
pub struct Limits {
    /// Places of the receive ring, 32 to 4,096.
    pub ring: u32,
    /// Background jobs that may be out at one time, 1 to 1,024.
    pub jobs: u32,
    /// Microseconds after which an unanswered packet is taken for lost, 1 to 60,000,000.
    pub timeout: u64,
}

impl Limits {
    /// Tells whether each limit is in its range.
    pub fn fits(&self) -> bool
        ensures { IsTrue result ↔ Fits self.now }
    {
        (LEAST_RING..=MOST_RING).contains(&self.ring)
            && (1..=MOST_JOBS).contains(&self.jobs)
            && (1..=MOST_TIMEOUT).contains(&self.timeout)
    }

    /// A ring of 1,024 places, 64 jobs and a timeout of 5,000 microseconds.
    pub fn usual() -> Limits
        ensures values { result ≡ record {
          ring = USUAL_RING;
          jobs = USUAL_JOBS;
          timeout = USUAL_TIMEOUT;
        } }
        ensures fits { Fits result }
    {
        Limits {
            ring: USUAL_RING,
            jobs: USUAL_JOBS,
            timeout: USUAL_TIMEOUT,
        }
    }
}
