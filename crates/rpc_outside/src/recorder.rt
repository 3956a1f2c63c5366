//! Where facts are noted.
ghost use Rattle.std.specs.Prelude.{[], ◌∷◌};
ghost use Rattle.rpc_outside.specs.Recording.{Grew, Log};

use rpc_base::{Event, Who};

/// A place where facts are noted, in order of happening. No call fails because of it: a recorder
/// that finds no memory is not whole from then on.
pub trait Recorder {
    // Its facts, and whether every one was kept.
    ghost log: { Self → Log };

    /// Notes one fact: who did what, with the bytes that belong to it.
    fn note(&mut self, who: Who, event: Event, first: &[u8], second: &[u8])
        ensures { Grew (log self.old) (log self.new)
            (record { who = who; event = event; first = first.now; second = second.now } ∷ []) };
}
