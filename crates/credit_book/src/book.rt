//! The book of a session's credits. Each packet that is posted takes one, each answer gives it
//! back.
ghost use Rattle.std.specs.Prelude.{◌≡◌, ℕ, ◌<◌, ◌≤◌, slice_index};
ghost use Rattle.credit_book.specs.Credits.{IsBalanced, limit_of, full_book, charged, given_back};
ghost use Rattle.credit_book.specs.Credits.{rolled};

use rpc_base::MOST_CREDITS;
use std::marker::Model;

/// The credits of one client session. Contracts see the free credits and, for each of the eight
/// slots, its unanswered packets. All nine together are the session's limit, always.
#[derive(Debug, Drop)]
pub struct CreditBook {
    free: u16,
    unanswered: [u16; 8],
}

impl Model for CreditBook {
    ghost use Rattle.credit_book.specs.Credits.{Credits, IsBalanced};

    ghost Value = { Credits };

    ghost view = { λ b. record { free = b.free; unanswered = b.unanswered } };

    ghost invariant = { λ b. IsBalanced (record { free = b.free; unanswered = b.unanswered }) };
}

impl CreditBook {
    /// A book with all `limit` credits free. `limit` is 1 to 256.
    pub fn new(limit: u16) -> CreditBook
        requires some { 1 ≤ limit }
        requires most { limit ≤ MOST_CREDITS }
        ensures book { result ≡ full_book limit }
        ensures limit { limit_of result ≡ limit }
    {
        CreditBook {
            free: limit,
            unanswered: [0; 8],
        }
    }

    /// How many credits are free, 0 to the limit.
    pub fn free(&self) -> u16
        ensures free { result ≡ self.now.free }
        ensures balanced { IsBalanced self.now }
    {
        self.free
    }

    /// How many packets of the slot are unanswered, each of which has one credit.
    pub fn unanswered(&self, slot: u8) -> u16
        requires { slot < 8 }
        ensures count { result ≡ slice_index self.now.unanswered slot }
        ensures balanced { IsBalanced self.now }
    {
        self.unanswered[usize::from(slot)]
    }

    /// One packet of the slot is posted: it takes a free credit, of which there has to be one.
    pub fn charge(&mut self, slot: u8)
        requires slot { slot < 8 }
        requires credit { 0 < self.old.free }
        ensures charged { self.new ≡ charged slot self.old }
        ensures limit { limit_of self.new ≡ limit_of self.old }
        ensures balanced { IsBalanced self.new }
    {
        let place = usize::from(slot);
        let count = self.unanswered[place];
        self.unanswered[place] = count + 1;
        self.free -= 1;
    }

    /// One packet of the slot is answered, and gives its credit back. The slot has to have an
    /// unanswered packet.
    pub fn give_back(&mut self, slot: u8)
        requires slot { slot < 8 }
        requires charged { 0 < slice_index self.old.unanswered slot }
        ensures given_back { self.new ≡ given_back slot self.old }
        ensures limit { limit_of self.new ≡ limit_of self.old }
        ensures balanced { IsBalanced self.new }
    {
        let place = usize::from(slot);
        let count = self.unanswered[place];
        self.unanswered[place] = count - 1;
        self.free += 1;
    }

    /// All credits of the slot come back, as when its call is rolled back or over. The result is
    /// how many came.
    pub fn roll(&mut self, slot: u8) -> u16
        requires { slot < 8 }
        ensures count { result ≡ slice_index self.old.unanswered slot }
        ensures rolled { self.new ≡ rolled slot self.old }
        ensures limit { limit_of self.new ≡ limit_of self.old }
        ensures balanced { IsBalanced self.new }
    {
        let place = usize::from(slot);
        let count = self.unanswered[place];
        self.unanswered[place] = 0;
        self.free += count;
        count
    }
}
