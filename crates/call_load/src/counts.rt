//! What is counted of calls, and of the turns that carry them.
ghost use Rattle.std.specs.Prelude.{◌≡◌, ◌+◌, ◌<◌, IfOk};
ghost use Rattle.call_load.specs.Counts.{AsksOne, BeginsAnew, CountsNone, CountsTurn, EndsOne};
ghost use Rattle.call_load.specs.Counts.{TimesOne};
ghost use Rattle.call_load.specs.declared.tally.TheConstants.{MOST_CALLS};
ghost use Rattle.memory_count.specs.Faults.{HasCause};

use crate::tally::{Ending, Tally, Turns};
use endpoint_loop::Turn;
use memory_count::{Memory, NoMemory};
use time_histogram::Histogram;

/// What came of calls since they were counted anew.
pub struct Counts {
    pub tally: Tally,
    pub turns: Turns,
    /// How long calls took that ended, in nanoseconds, and those since it was cleared last.
    pub times: Histogram,
    pub newest: Histogram,
}

// Written by hand, so that whoever lets one go makes a call.
impl Drop for Counts {
    fn drop(self) {
        let Counts {
            tally: _,
            turns: _,
            times: _times,
            newest: _newest,
        } = self;
    }
}

impl Counts {
    /// Nothing was counted.
    pub fn new(memory: &mut Memory) -> Result<Counts, NoMemory>
        ensures none { IfOk result (λ c. CountsNone c) }
        ensures cause { HasCause memory.old memory.new result }
    {
        let times = Histogram::new(memory)?;
        let newest = Histogram::new(memory)?;
        Ok(Counts {
            tally: Tally::new(),
            turns: Turns::none(),
            times,
            newest,
        })
    }

    /// Counts anew: of what was counted so far only the calls that are pending stay.
    pub fn begin(&mut self)
        ensures { BeginsAnew self.old self.new }
    {
        self.tally = self.tally.anew();
        self.turns = Turns::none();
        self.times.clear();
        self.newest.clear();
    }

    /// One more call is asked, and is pending. It has to have room for one: fewer than 2^60 were
    /// asked.
    pub fn ask(&mut self)
        requires { self.old.tally.asked < MOST_CALLS }
        ensures { AsksOne self.old self.new }
    {
        self.tally.ask();
    }

    /// A call ended that took so long, in nanoseconds. A histogram that is full leaves it out.
    pub fn time(&mut self, took: u64)
        ensures { TimesOne took self.old self.new }
    {
        if !self.times.is_full() {
            self.times.add(took);
        }
        if !self.newest.is_full() {
            self.newest.add(took);
        }
    }

    /// A call ended so, where one is pending.
    pub fn end(&mut self, ending: Ending)
        ensures { EndsOne ending self.old self.new }
    {
        if self.tally.pending > 0 {
            self.tally.end(ending);
        }
    }

    /// A turn was made, which did this.
    pub fn turn(&mut self, turn: &Turn)
        ensures { CountsTurn turn.now self.old self.new }
    {
        self.turns.count(turn);
    }
}
