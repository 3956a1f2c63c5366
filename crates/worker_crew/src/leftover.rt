//! What is left of a crew that stopped.
ghost use Rattle.std.specs.Prelude.{◌≡◌, ◌↔◌, ◌++◌, [], option_to_list, IsNone};

use crate::dispatcher::Dispatcher;
use crate::workers::Finished;
use rpc_outside::Duty;
use std::collections::VecDeque;
use std::marker::Model;

/// The jobs that were out when a crew was stopped, each worked or as it was given. Its board is
/// kept with it, so that contracts can tell which jobs were taken back.
pub struct Leftover<D: Duty> {
    pub(crate) dispatcher: Dispatcher<D>,
    pub(crate) jobs: VecDeque<Finished>,
}

// Written by hand, so that whoever lets it go makes a call, and proves nothing of its parts.
impl<D: Duty + Drop> Drop for Leftover<D> {
    fn drop(self) {
        let Leftover {
            dispatcher: _dispatcher,
            jobs: _jobs,
        } = self;
    }
}

impl<D: Duty> Model for Leftover<D> {
    ghost use Rattle.worker_crew.specs.Leaving.{LeftState};

    ghost Value = { LeftState };

    ghost view = { λ l. record { dispatching = l.dispatcher; jobs = l.jobs.items } };
}

impl<D: Duty> Leftover<D> {
    /// The next job. None comes exactly where all were given.
    pub fn next(&mut self) -> Option<Finished>
        ensures jobs { self.old.jobs ≡ option_to_list result ++ self.new.jobs }
        ensures all { IsNone result ↔ (self.old.jobs ≡ []) }
        ensures same { self.new.dispatching ≡ self.old.dispatching }
    {
        self.jobs.pop_front()
    }
}
