//! What is asked, and how.
ghost use Rattle.std.specs.Prelude.{◌≡◌, ◌≤◌, ◌↔◌, IsTrue};
ghost use Rattle.call_load.specs.Aims.{IsInRange};
ghost use Rattle.call_load.specs.Callers.{answered_of, asked_of};

use rpc_base::{MOST_CREDITS, MOST_MESSAGE_BYTES, MOST_TIMEOUT};

/// No more sessions are opened: so many, of 32 credits each, fill a ring of the usual size, which
/// bounds the credits of all of them.
pub const MOST_CALLERS: u16 = 32;

/// No more calls are pending at a time.
pub const MOST_PENDING: u32 = 4_096;

/// The bytes of the number that a call of type 3 asks, and of its answer.
const TALLY_BYTES: u32 = 8;

/// The bytes of the number that a call of type 4 or 132 asks.
const FILL_BYTES: u32 = 4;

/// So many bytes are compared at once.
const WORD_BYTES: usize = 8;

// Whether two messages are the same, word by word.
fn are_same(one: &[u8], other: &[u8]) -> bool {
    let (ones, one_rest) = one.as_chunks::<WORD_BYTES>();
    let (others, other_rest) = other.as_chunks::<WORD_BYTES>();
    if ones.len() != others.len() || one_rest != other_rest {
        return false;
    }
    let mut words = ones.iter().zip(others);
    words.all(|(a, b)| u64::from_ne_bytes(*a) == u64::from_ne_bytes(*b))
}

/// What is asked of a server that offers the plain service, and how.
#[derive(Clone, Copy, Debug, PartialEq, Eq)]
pub struct Aim {
    /// How many sessions there are, 1 to 32.
    pub sessions: u16,
    /// How many packets of a session may be unanswered, 1 to 256.
    pub credits: u16,
    /// How many calls are pending at a time, over all sessions, 1 to 4,096. A session works eight
    /// of its calls at a time.
    pub pending: u32,
    /// So many calls are asked; 0: as many as there is time for.
    pub calls: u32,
    /// The type of each call.
    pub req_type: u8,
    /// The bytes that a call asks, or that a call of type 4 or 132 is answered with: at most
    /// 1,048,576.
    pub size: u32,
    /// So many calls are asked in a second, at set times; 0: each as soon as an older one is over.
    pub rate: u32,
    /// Microseconds after which an unanswered packet is taken for lost, 1 to 60,000,000.
    pub timeout: u64,
}

impl Aim {
    /// Tells whether each number is in its range.
    pub fn fits(&self) -> bool
        ensures { IsTrue result ↔ IsInRange self.now }
    {
        (1..=MOST_CALLERS).contains(&self.sessions)
            && (1..=MOST_CREDITS).contains(&self.credits)
            && (1..=MOST_PENDING).contains(&self.pending)
            && self.size <= MOST_MESSAGE_BYTES
            && (1..=MOST_TIMEOUT).contains(&self.timeout)
    }

    /// How many bytes a call asks.
    pub fn asked_bytes(&self) -> u32
        ensures of { result ≡ asked_of self.now }
        ensures most { result ≤ MOST_MESSAGE_BYTES }
    {
        match self.req_type {
            3 => TALLY_BYTES,
            4 | 132 => FILL_BYTES,
            _ => self.size.min(MOST_MESSAGE_BYTES),
        }
    }

    /// How many bytes an answer has.
    pub fn answer_bytes(&self) -> u32
        ensures of { result ≡ answered_of self.now }
        ensures most { result ≤ MOST_MESSAGE_BYTES }
    {
        match self.req_type {
            3 => TALLY_BYTES,
            _ => self.size.min(MOST_MESSAGE_BYTES),
        }
    }

    /// Whether this is a right answer: to an echo what was asked, and else so many bytes.
    pub fn is_right(&self, asked: &[u8], answer: &[u8]) -> bool {
        match self.req_type {
            2 | 130 | 4 | 132 => answer.len() == self.size as usize,
            3 => answer.len() == TALLY_BYTES as usize,
            _ => are_same(answer, asked),
        }
    }
}
