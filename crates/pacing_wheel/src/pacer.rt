//! The pacer.
ghost use Rattle.std.specs.Prelude.{◌≡◌, ◌<◌, ◌≤◌, ◌↔◌, ◌+◌, [], false, length, option_map};
ghost use Rattle.std.specs.Prelude.{slice_get};
ghost use Rattle.std.specs.Prelude.{IfOk, IfSome, IsNone, IsOk, IsTrue, drop};
ghost use Rattle.std.specs.List.{AllByRecursion, find, list_any};
ghost use Rattle.std.specs.List.Sorted.{IsNonDecreasingBy};
ghost use Rattle.memory_count.specs.Faults.{HasCause};
ghost use Rattle.rpc_base.specs.Tables.{without_first};
ghost use Rattle.rpc_base.specs.Least.{least, least_number, without_least};
ghost use Rattle.pacing_wheel.specs.Wheel.{added, due_of, entry_of, is_due, is_entry_of};
ghost use Rattle.pacing_wheel.specs.Wheel.{is_first, is_of, merged, number_of, wheel};

use crate::choosing::{earlier, is_first, lesser};
use crate::dial::Dial;
use crate::due_list::DueList;
use memory_count::{Memory, NoMemory};
use packet_rings::Entry;
use rpc_base::Owner;
use std::marker::Model;

/// An entry that waits, and the time in microseconds from which on it may be sent.
#[derive(Clone, Copy, Debug)]
pub struct Paced {
    pub due: u64,
    pub entry: Entry,
}

/// The packets that were posted and aren't due yet: by the times when they are due, and among
/// equals by their adding. Those that are due within one turn of the wheel stand in its places, all
/// others in a list by due times.
#[derive(Drop)]
pub struct Pacer {
    dial: Dial,
    overflow: DueList,
    size: u32,
}

impl Model for Pacer {
    ghost use Rattle.std.specs.Prelude.{◌≡◌, ◌+◌, ◌≤◌, ◌<◌, ◌^◌, length};
    ghost use Rattle.pacing_wheel.specs.Wheel.{Wheel, merged, wheel};

    ghost Value = { Wheel };

    ghost view = { λ p. wheel (merged p.overflow.items p.dial.items) p.size };

    ghost invariant = { λ p. (length p.overflow.items + length p.dial.items ≤ p.size)
        × (p.dial.size ≡ p.size) × (p.overflow.size ≡ p.size) × (p.size < 2 ^ 32) };
}

impl Pacer {
    /// A pacer of `size` entries, whose memory is taken here. `NoMemory` comes only where
    /// memory was refused; one of size 0 takes none.
    pub fn new(memory: &mut Memory, size: u32) -> Result<Pacer, NoMemory>
        ensures made { IfOk result (λ p. p ≡ wheel [] size) }
        ensures succeeds { size ≡ 0 → IsOk result }
        ensures cause { HasCause memory.old memory.new result }
    {
        let dial = Dial::new(memory, size)?;
        let overflow = DueList::new(memory, size)?;
        Ok(Pacer {
            dial,
            overflow,
            size,
        })
    }

    /// How many entries wait.
    pub fn len(&self) -> u32
        ensures len { result ≡ length self.now.items }
        ensures within { result ≤ self.now.size }
    {
        self.overflow.len() + self.dial.len()
    }

    /// How many entries may wait.
    pub fn size(&self) -> u32
        ensures size { result ≡ self.now.size }
        ensures within { length self.now.items ≤ self.now.size }
    {
        self.size
    }

    /// Tells whether no entry waits.
    pub fn is_empty(&self) -> bool
        ensures { IsTrue result ↔ (self.now.items ≡ []) }
    {
        self.len() == 0
    }

    /// Puts an entry behind those that are due no later, in a pacer that isn't full. `due` is in
    /// microseconds.
    pub fn add(&mut self, due: u64, entry: Entry)
        requires room { length self.old.items < self.old.size }
        ensures { self.new ≡ wheel (added due entry self.old.items) self.old.size }
    {
        self.overflow.sound();
        self.dial.sound();
        if self.dial.covers(due) {
            self.dial.add(due, entry);
        } else {
            self.overflow.add(due, entry);
        }
    }

    /// The entry that is due first, among equals the one added first, with its due time. None comes
    /// exactly where no entry waits.
    pub fn front(&self) -> Option<Paced>
        ensures front { result ≡ slice_get self.now.items 0 }
        ensures first { IfSome result (λ p. AllByRecursion (λ q. p.due ≤ q.due) self.now.items) }
    {
        self.overflow.sound();
        self.dial.sound();
        earlier(self.overflow.front(), self.dial.front())
    }

    /// Takes that entry out. None comes exactly where no entry waits.
    pub fn pop(&mut self) -> Option<Entry>
        ensures front { result ≡ option_map entry_of (slice_get self.old.items 0) }
        ensures rest { self.new ≡ wheel (drop 1 self.old.items) self.old.size }
    {
        self.overflow.sound();
        self.dial.sound();
        if overflow_is_first(&self.overflow, &self.dial) {
            self.overflow.pop()
        } else {
            self.dial.pop()
        }
    }

    /// The entry that is due first, among equals the one added first, where it is due at `now`, in
    /// microseconds. None comes exactly where no entry is. It looks at no place behind `now`.
    #[inline(always)]
    pub fn first_due(&self, now: u64) -> Option<Paced>
        ensures due { result ≡ least (is_due now) due_of self.now.items }
        ensures none { IsNone result ↔ (list_any (is_due now) self.now.items ≡ false) }
    {
        if self.is_empty() {
            return None;
        }
        self.overflow.sound();
        self.dial.sound();
        earlier(self.overflow.first_due(now), self.dial.first_due(now))
    }

    /// Takes out the entry that is due first, among equals the one added first, where it is due at
    /// `now`, in microseconds. None comes exactly where no entry is.
    pub fn release(&mut self, now: u64) -> Option<Entry>
        ensures released { result
            ≡ option_map entry_of (least (is_due now) due_of self.old.items) }
        ensures left { self.new
            ≡ wheel (without_least (is_due now) due_of self.old.items) self.old.size }
        ensures none { IsNone result ↔ (list_any (is_due now) self.old.items ≡ false) }
    {
        self.sound();
        self.turn(now);
        let Some(_first) = self.first_due(now) else {
            return None;
        };
        self.pop()
    }

    // Moves the wheel's cursor on.
    fn turn(&mut self, now: u64)
        ensures { self.new ≡ self.old }
    {
        self.dial.go_to(now);
    }

    /// Does nothing. Its clause is what holds of each pacer: its entries stand by their due times.
    pub fn sound(&self)
        ensures { IsNonDecreasingBy due_of self.now.items }
    {
        self.overflow.sound();
        self.dial.sound();
    }

    /// The least number among that owner's entries. None comes exactly where it has no entry.
    pub fn least(&self, owner: Owner) -> Option<u16>
        ensures least { result ≡ least_number (is_of owner) number_of self.now.items }
        ensures none { IsNone result ↔ (list_any (is_of owner) self.now.items ≡ false) }
    {
        lesser(self.overflow.least(&owner), self.dial.least(&owner))
    }

    /// Tells whether that owner's packet of this number waits.
    pub fn holds(&self, owner: Owner, number: u16) -> bool
        ensures { result ≡ list_any (is_entry_of owner number) self.now.items }
    {
        self.overflow.holds(&owner, number) || self.dial.holds(&owner, number)
    }

    /// Takes out that owner's entry of least number, among equals the one that is due first. The
    /// others keep their order. None comes exactly where the owner has no entry.
    pub fn flush(&mut self, owner: Owner) -> Option<Entry>
        ensures taken { result
            ≡ option_map entry_of (least (is_of owner) number_of self.old.items) }
        ensures left { self.new
            ≡ wheel (without_least (is_of owner) number_of self.old.items) self.old.size }
        ensures none { IsNone result ↔ (list_any (is_of owner) self.old.items ≡ false) }
    {
        let Some(number) = self.least(owner) else {
            return None;
        };
        self.take_with(&owner, number)
    }

    // Takes out that owner's entry of this number, among equals the one that is due first.
    fn take_with(&mut self, owner: &Owner, number: u16) -> Option<Entry>
        ensures taken { result
            ≡ option_map entry_of (find (is_entry_of owner.now number) self.old.items) }
        ensures left { self.new
            ≡ wheel (without_first (is_entry_of owner.now number) self.old.items) self.old.size }
    {
        self.overflow.sound();
        self.dial.sound();
        let first = self.overflow.first_with(owner, number);
        let second = self.dial.first_with(owner, number);
        if is_first(&first, &second) {
            let _first = self.overflow.take_with(owner, number);
            entry_in(&first)
        } else {
            self.dial.drop_with(owner, number);
            entry_in(&second)
        }
    }
}

// Whether the overflow's first entry comes before the wheel's. It looks at no place behind the time
// when the former is due.
fn overflow_is_first(overflow: &DueList, dial: &Dial) -> bool
    ensures { result ≡ is_first (slice_get overflow.now.items 0) (slice_get dial.now.items 0) }
{
    dial.sound();
    let Some(first) = overflow.front() else {
        return false;
    };
    let second = dial.first_due(first.due);
    is_first(&Some(first), &second)
}

fn entry_in(paced: &Option<Paced>) -> Option<Entry>
    ensures { result ≡ option_map entry_of paced.now }
{
    match paced {
        Some(paced) => Some(paced.entry),
        None => None,
    }
}
