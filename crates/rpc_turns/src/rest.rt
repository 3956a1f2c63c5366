//! What a run does where nothing comes.
ghost use Rattle.std.specs.Prelude.{◌≡◌, ◌≤◌, ◌↔◌, IsTrue};
ghost use Rattle.endpoint_loop.specs.Polls.{turn_of};
ghost use Rattle.rpc_turns.specs.Rests.{CountsIf, IsIdle, Rests, RestsFor, is_asleep};
ghost use Rattle.rpc_turns.specs.Rests.{longest_sleep, resting};

use endpoint_loop::{Endpoint, LinkFault, Turn};
use rpc_outside::{Link, Service};
use worker_crew::Workers;

/// A run that may sleep does so after this many turns in a row that did nothing.
pub const EMPTY_TURNS: u32 = 256;

/// So many sleeps in a row are short: a second of them at most.
pub const SHORT_SLEEPS: u32 = 1_000;

/// The microseconds of the longest of these.
pub const SHORT_SLEEP: u32 = 1_000;

/// The microseconds of the longest sleep behind them.
pub const LONG_SLEEP: u32 = 10_000;

/// What a run does where nothing comes.
#[derive(Clone, Copy, Debug, PartialEq, Eq)]
pub struct Rest {
    /// Whether it may sleep then.
    pub sleeps: bool,
    /// How many turns in a row did nothing; it stops at 1,256, behind the last of the short sleeps.
    pub empty: u32,
}

/// For how many microseconds from its clock on, at most so many, nothing is due at an endpoint. Its
/// clock is the moment of its last turn.
pub fn rests_for<V: Service, W: Workers>(endpoint: &Endpoint<V, W>, most: u32) -> u32
    ensures { RestsFor endpoint.now.timed most result }
{
    let clock = endpoint.clock();
    let until = clock.saturating_add(u64::from(most));
    match endpoint.first_due(until) {
        Some(due) => due.saturating_sub(clock) as u32,
        None => (until - clock) as u32,
    }
}

// Whether a poll handled and sent nothing, and left nothing to be sent.
fn is_idle(turned: Result<Turn, LinkFault>) -> bool
    ensures { IsTrue result ↔ IsIdle (turn_of turned) }
{
    match turned {
        Ok(turn) => turn.is_idle(),
        Err(_) => false,
    }
}

impl Rest {
    /// A run that made no turn so far. It may sleep, or goes on turning.
    pub fn new(sleeps: bool) -> Rest
        ensures { result ≡ resting sleeps }
    {
        Rest { sleeps, empty: 0 }
    }

    // Whether it sleeps before its next turn.
    fn is_asleep(&self) -> bool
        ensures { result ≡ is_asleep self.now }
    {
        self.sleeps && self.empty >= EMPTY_TURNS
    }

    // The microseconds of its longest sleep by its count.
    fn longest_sleep(&self) -> u32
        ensures { result ≡ longest_sleep self.now }
    {
        if self.empty >= EMPTY_TURNS + SHORT_SLEEPS {
            LONG_SLEEP
        } else {
            SHORT_SLEEP
        }
    }

    // For how many microseconds it sleeps, where it does: as long as nothing is due.
    fn sleeps_for<V: Service, W: Workers>(&self, endpoint: &Endpoint<V, W>) -> u32
        ensures { RestsFor endpoint.now.timed (longest_sleep self.now) result }
    {
        rests_for(endpoint, self.longest_sleep())
    }

    /// Waits for the next datagram, where 256 turns in a row did nothing and it may sleep: as long
    /// as nothing is due, and no longer than 1,000 microseconds, or, behind 1,000 such sleeps in a
    /// row, than 10,000.
    pub fn sleep<V: Service, W: Workers, L: Link>(&self, endpoint: &Endpoint<V, W>, link: &mut L)
        ensures { Rests L.Link (is_asleep self.now) link.old link.new }
    {
        if self.is_asleep() {
            link.wait(self.sleeps_for(endpoint));
        }
    }

    /// Counts a turn that did nothing: its poll didn't, and the endpoint is quiet behind it.
    pub fn count(&mut self, turned: Result<Turn, LinkFault>, is_quiet: bool)
        ensures { CountsIf (turn_of turned) is_quiet self.old self.new }
    {
        if is_idle(turned) && is_quiet {
            self.empty = self.empty.saturating_add(1).min(EMPTY_TURNS + SHORT_SLEEPS);
        } else {
            self.empty = 0;
        }
    }
}
