//! What tells the time.
ghost use Rattle.std.specs.Prelude.{◌≡◌, ℕ, List, ⊤};
ghost use Rattle.rpc_outside.specs.Ticking.{Gives};

use std::time;

/// Tells the time in microseconds. It may stand still or fall; an endpoint uses the greatest answer
/// so far.
pub trait Clock {
    // Whether these may be all of its answers so far, in order.
    ghost gave: { Self → List ℕ → Type 0 };

    /// The time now, in microseconds.
    fn now(&mut self) -> u64
        ensures { Gives gave self.old self.new result };
}

/// The clock of the system, which doesn't fall. It tells nothing of its answers. Where the system
/// doesn't tell the time, it answers as before.
#[derive(Drop)]
pub struct SysClock<'a, T: time::Clock> {
    system: &'a T,
    last: u64,
}

impl<'a, T: time::Clock> SysClock<'a, T> {
    /// The clock of this system. Its time begins at some moment of the system's own.
    pub fn new(system: &'a T) -> SysClock<'a, T>
        ensures { result.last ≡ 0 }
    {
        SysClock { system, last: 0 }
    }
}

impl<'a, T: time::Clock> Clock for SysClock<'a, T> {
    ghost gave = { λ c answers. ⊤ };

    fn now(&mut self) -> u64 {
        if let Ok(time) = self.system.monotonic() {
            self.last = u64::try_from(time.as_micros()).unwrap_or(u64::MAX);
        }
        self.last
    }
}
