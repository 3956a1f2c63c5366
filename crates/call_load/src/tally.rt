//! How many calls were asked, and how they ended.
ghost use Rattle.std.specs.Prelude.{◌≡◌, ◌≢◌, ◌+◌, ◌<◌, ◌≤◌, ◌↔◌, IsTrue};
ghost use Rattle.call_load.specs.declared.tally.TheConstants.{MOST_CALLS};

use client_core::Outcome;
use endpoint_loop::Turn;

/// No more calls are counted.
const MOST_CALLS: u64 = 1 << 60;

/// How a call ended.
#[derive(Clone, Copy, Debug, PartialEq, Eq)]
pub enum Ending {
    /// Well, with a right answer.
    Right,
    /// Well, with a wrong answer.
    Wrong,
    /// Its answer was larger than its room.
    Small,
    /// It lost its peer.
    Lost,
}

impl Ending {
    /// How a call with this outcome ended, whose answer is right or isn't.
    pub fn of(outcome: Outcome, is_right: bool) -> Ending {
        match outcome {
            Outcome::Ok if is_right => Ending::Right,
            Outcome::Ok => Ending::Wrong,
            Outcome::TooSmall { .. } => Ending::Small,
            Outcome::PeerLost => Ending::Lost,
        }
    }
}

/// The calls that were asked since it began, with those that were pending then: each is pending, or
/// is over in one of four ways.
#[derive(Clone, Copy, Debug, PartialEq, Eq)]
pub struct Tally {
    pub asked: u64,
    pub pending: u64,
    pub right: u64,
    pub wrong: u64,
    pub small: u64,
    pub lost: u64,
    ghost balanced: { asked ≡ right + wrong + small + lost + pending },
    ghost few: { asked ≤ MOST_CALLS },
}

impl Tally {
    ghost use Rattle.call_load.specs.Tallies.{ended_so};
    ghost use Rattle.call_load.specs.declared.tally.Ending.{Ending};

    /// No call was asked, and none is pending.
    pub fn new() -> Tally
        ensures none { (e : Ending) → ended_so e result ≡ 0 }
        ensures asked { result.asked ≡ 0 }
    {
        Tally {
            asked: 0,
            pending: 0,
            right: 0,
            wrong: 0,
            small: 0,
            lost: 0,
        }
    }

    /// The same calls, of which only those that are pending were asked.
    pub fn anew(&self) -> Tally
        ensures none { (e : Ending) → ended_so e result ≡ 0 }
        ensures pending { result.pending ≡ self.now.pending }
    {
        Tally {
            asked: self.pending,
            pending: self.pending,
            right: 0,
            wrong: 0,
            small: 0,
            lost: 0,
        }
    }

    /// Whether no more calls are counted: there are 2^60.
    pub fn is_full(&self) -> bool
        ensures { IsTrue result ↔ (MOST_CALLS ≤ self.now.asked) }
    {
        self.asked >= MOST_CALLS
    }

    /// One more call is asked, and is pending.
    pub fn ask(&mut self)
        requires { self.old.asked < MOST_CALLS }
        ensures asked { self.new.asked ≡ self.old.asked + 1 }
        ensures pending { self.new.pending ≡ self.old.pending + 1 }
        ensures ended { (e : Ending) → ended_so e self.new ≡ ended_so e self.old }
    {
        self.asked += 1;
        self.pending += 1;
    }

    /// A pending call ended so.
    pub fn end(&mut self, ending: Ending)
        requires { 0 < self.old.pending }
        ensures own { ended_so ending self.new ≡ ended_so ending self.old + 1 }
        ensures others { (e : Ending) → e ≢ ending → ended_so e self.new ≡ ended_so e self.old }
        ensures pending { self.new.pending + 1 ≡ self.old.pending }
        ensures asked { self.new.asked ≡ self.old.asked }
    {
        self.pending -= 1;
        match ending {
            Ending::Right => self.right += 1,
            Ending::Wrong => self.wrong += 1,
            Ending::Small => self.small += 1,
            Ending::Lost => self.lost += 1,
        }
    }
}

/// What turns of an endpoint did. Each count stops at 2^64 - 1.
#[derive(Clone, Copy, Debug, PartialEq, Eq)]
pub struct Turns {
    pub made: u64,
    /// Those that handled no packet.
    pub empty: u64,
    /// The packets that they handled, and those that they sent.
    pub handled: u64,
    pub sent: u64,
    /// Those after which the link was busy.
    pub busy: u64,
}

impl Turns {
    ghost use Rattle.call_load.specs.Counts.{no_turns, turned};

    /// No turn was made.
    pub fn none() -> Turns
        ensures { result ≡ no_turns }
    {
        Turns {
            made: 0,
            empty: 0,
            handled: 0,
            sent: 0,
            busy: 0,
        }
    }

    /// A turn was made, which did this.
    pub fn count(&mut self, turn: &Turn)
        ensures { self.new ≡ turned turn.now self.old }
    {
        self.made = self.made.saturating_add(1);
        self.handled = self.handled.saturating_add(u64::from(turn.handled));
        self.sent = self.sent.saturating_add(u64::from(turn.sent));
        self.empty = self.empty.saturating_add(u64::from(turn.handled == 0));
        self.busy = self.busy.saturating_add(u64::from(turn.busy));
    }
}
