//! What is remembered of the facts of a run: how a session was lost.
ghost use Rattle.std.specs.Prelude.{None, true};

use rpc_base::{Event, Who};
use rpc_outside::Recorder;

/// Why a client's session is over, though it wasn't closed.
#[derive(Clone, Copy, Debug, PartialEq, Eq)]
pub enum Loss {
    /// No server answered.
    NoAnswer,
    /// The server had no room for it.
    NoRoom,
    /// The server was lost after it had answered.
    Broken,
}

/// A recorder that keeps no facts, and remembers the loss of which it was told last.
#[derive(Clone, Copy, Debug, PartialEq, Eq)]
pub struct LossRecord {
    last: Option<Loss>,
}

impl LossRecord {
    /// No loss was noted.
    pub fn new() -> LossRecord {
        LossRecord { last: None }
    }

    /// The loss that was noted last.
    pub fn last(&self) -> Option<Loss> {
        self.last
    }
}

impl Recorder for LossRecord {
    ghost log = { λ _. record { facts = None; whole = true } };

    fn note(&mut self, _who: Who, event: Event, _first: &[u8], _second: &[u8]) {
        match event {
            Event::FailedNoAnswer { .. } => self.last = Some(Loss::NoAnswer),
            Event::FailedNoRoom { .. } => self.last = Some(Loss::NoRoom),
            Event::Broken { .. } => self.last = Some(Loss::Broken),
            _ => {}
        }
    }
}
