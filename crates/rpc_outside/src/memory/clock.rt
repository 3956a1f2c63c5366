//! A clock that goes on by a step.
ghost use Rattle.std.specs.Prelude.{◌≡◌, []};
ghost use Rattle.rpc_outside.specs.Ticking.{GoesBySteps};

use crate::clock::Clock;

/// A clock that answers `start`, `start + step`, and so on, and stops at 2^64 - 1.
#[derive(Clone, Copy, Debug, PartialEq, Eq)]
pub struct StepClock {
    start: u64,
    step: u64,
    next: u64,
}

impl StepClock {
    /// A clock whose first answer is `start`, and each later one `step` more, in microseconds.
    pub fn new(start: u64, step: u64) -> StepClock
        ensures steps { GoesBySteps start step result.next [] }
        ensures start { result.start ≡ start }
        ensures step { result.step ≡ step }
    {
        StepClock {
            start,
            step,
            next: start,
        }
    }
}

impl Clock for StepClock {
    ghost gave = { λ c answers. GoesBySteps c.start c.step c.next answers };

    fn now(&mut self) -> u64 {
        let now = self.next;
        self.next = now.saturating_add(self.step);
        now
    }
}
