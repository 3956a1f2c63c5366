//! Numbers of sessions, in ascending order.
ghost use Rattle.std.specs.Prelude.{◌≡◌, ◌≢◌, ◌<◌, ◌≤◌, ℕ, [], length, slice_index, IfOk};
ghost use Rattle.std.specs.List.{Contains, insert, remove};
ghost use Rattle.std.specs.Vec.{vec_capacity};
ghost use Rattle.memory_count.specs.Faults.{HasCause};
ghost use Rattle.calling_sessions.specs.Rising.{IsNext, Rises, StandsAt};

use memory_count::{Memory, NoMemory};
use rpc_base::MOST_SESSIONS;
use std::marker::Model;

// Puts a number into its place: most often that is behind all others.
fn put_at(numbers: &mut Vec<u16>, place: usize, number: u16)
    requires place { place ≤ length numbers.old.items }
    requires room { length numbers.old.items < vec_capacity numbers.old }
    ensures items { numbers.new.items ≡ insert numbers.old.items place number }
    ensures capacity { vec_capacity numbers.old ≤ vec_capacity numbers.new }
{
    if place == numbers.len() {
        let Ok(()) = numbers.push(number) else {
            unreachable!()
        };
        return;
    }
    let Ok(()) = numbers.insert(place, number) else {
        unreachable!()
    };
}

// Takes the number at a place out: most often it is the last one.
fn take_at(numbers: &mut Vec<u16>, place: usize)
    requires there { place < length numbers.old.items }
    ensures items { numbers.new.items ≡ remove numbers.old.items place }
    ensures capacity { vec_capacity numbers.new ≡ vec_capacity numbers.old }
{
    if place + 1 == numbers.len() {
        numbers.truncate(place);
    } else {
        let _number = numbers.remove(place);
    }
}

/// The numbers of the sessions that a poll visits. Contracts see them as a list that rises. It has
/// room for all of them.
#[derive(Drop)]
pub struct CallingSessions {
    numbers: Vec<u16>,
}

impl Model for CallingSessions {
    ghost use Rattle.std.specs.Prelude.{◌≤◌, ℕ, List};
    ghost use Rattle.std.specs.Vec.{vec_capacity};
    ghost use Rattle.rpc_base.specs.declared.limits.TheConstants.{MOST_SESSIONS};
    ghost use Rattle.calling_sessions.specs.Rising.{AreBelow, Rises};

    ghost Value = { List ℕ };

    ghost view = { λ s. s.numbers.items };

    ghost invariant = { λ s. Rises s.numbers.items × AreBelow MOST_SESSIONS s.numbers.items
        × (MOST_SESSIONS ≤ vec_capacity s.numbers) };
}

impl CallingSessions {
    /// No session. The memory for all numbers is taken here. `NoMemory` comes only where it was
    /// refused.
    pub fn new(memory: &mut Memory) -> Result<CallingSessions, NoMemory>
        ensures none { IfOk result (λ s. s ≡ []) }
        ensures cause { HasCause memory.old memory.new result }
    {
        let numbers = memory.list(MOST_SESSIONS)?;
        Ok(CallingSessions { numbers })
    }

    /// A session is visited from now on; that may be known already. It takes no memory.
    pub fn enter(&mut self, session: u16)
        ensures entered { Contains self.new session }
        ensures others { (n : ℕ) → Contains self.old n → Contains self.new n }
        ensures alone { (n : ℕ) → n ≢ session → Contains self.new n → Contains self.old n }
    {
        let Err(place) = self.search(session) else {
            return;
        };
        put_at(&mut self.numbers, place, session);
    }

    /// A session isn't visited any more.
    pub fn leave(&mut self, session: u16)
        ensures left { (n : ℕ) → Contains self.new n → n ≢ session }
        ensures others { (n : ℕ) → n ≢ session → Contains self.old n → Contains self.new n }
        ensures alone { (n : ℕ) → Contains self.new n → Contains self.old n }
    {
        match self.search(session) {
            Ok(place) => take_at(&mut self.numbers, place),
            Err(_place) => {}
        }
    }

    // Where a number stands, or as an Err where it would stand. Most often it is the last one, or
    // above all.
    fn search(&self, number: u16) -> Result<usize, usize>
        ensures place { StandsAt number self.now result }
        ensures rises { Rises self.now }
    {
        let Some(last) = self.numbers.last() else {
            return Err(0);
        };
        if *last < number {
            return Err(self.numbers.len());
        }
        if *last == number {
            return Ok(self.numbers.len() - 1);
        }
        self.numbers.binary_search(&number)
    }

    // Where the number `from` stands, or would stand.
    fn place_from(&self, from: u16) -> usize
        ensures below { (k : ℕ) → k < result → slice_index self.now k < from }
        ensures above { (k : ℕ) → result ≤ k → k < length self.now → from ≤ slice_index self.now k }
    {
        match self.search(from) {
            Ok(place) => place,
            Err(place) => place,
        }
    }

    /// The session of least number that is visited, from the number `from` on. None comes exactly
    /// where there is none.
    pub fn next(&self, from: u16) -> Option<u16>
        ensures { IsNext from self.now result }
    {
        let place = self.place_from(from);
        if place < self.numbers.len() {
            return Some(self.numbers[place]);
        }
        None
    }
}
