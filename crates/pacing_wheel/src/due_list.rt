//! A list of entries by their due times.
ghost use Rattle.std.specs.Prelude.{◌≡◌, ◌<◌, ◌≤◌, ◌↔◌, ◌+◌, [], false, length, option_map};
ghost use Rattle.std.specs.Prelude.{slice_get, Some};
ghost use Rattle.std.specs.Prelude.{IfOk, IfSome, IsNone, IsOk, IsTrue, drop};
ghost use Rattle.std.specs.List.{AllByRecursion, find, list_any, position};
ghost use Rattle.std.specs.VecDeque.{deque_capacity};
ghost use Rattle.std.specs.List.Sorted.{IsNonDecreasingBy};
ghost use Rattle.memory_count.specs.Faults.{HasCause};
ghost use Rattle.rpc_base.specs.Tables.{without_first};
ghost use Rattle.rpc_base.specs.Least.{least, least_number, smaller, without_least};
ghost use Rattle.packet_rings.specs.Entries.{option_is};
ghost use Rattle.pacing_wheel.specs.Wheel.{added, due_of, entry_of, is_due, is_entry_of, is_of};
ghost use Rattle.pacing_wheel.specs.Wheel.{number_of, wheel};

use crate::choosing::smaller_of;
use crate::pacer::Paced;
use memory_count::{Memory, NoMemory};
use packet_rings::Entry;
use rpc_base::Owner;
use std::collections::VecDeque;
use std::marker::Model;

/// The packets that were posted and aren't due yet, in a list of fixed size: by the times when they
/// are due, and among equals by their adding.
#[derive(Drop)]
pub struct DueList {
    waiting: VecDeque<Paced>,
    size: u32,
}

impl Model for DueList {
    ghost use Rattle.std.specs.Prelude.{◌≤◌, ◌<◌, ◌^◌, length};
    ghost use Rattle.std.specs.VecDeque.{deque_capacity};
    ghost use Rattle.std.specs.List.Sorted.{IsNonDecreasingBy};
    ghost use Rattle.pacing_wheel.specs.Wheel.{Wheel, due_of, wheel};

    ghost Value = { Wheel };

    ghost view = { λ p. wheel p.waiting.items p.size };

    ghost invariant = { λ p. (length p.waiting.items ≤ p.size)
        × (p.size ≤ deque_capacity p.waiting) × (p.size < 2 ^ 32)
        × IsNonDecreasingBy due_of p.waiting.items };
}

impl DueList {
    /// A pacer of `size` entries, whose memory is taken here. `NoMemory` comes only where
    /// memory was refused; one of size 0 takes none.
    pub fn new(memory: &mut Memory, size: u32) -> Result<DueList, NoMemory>
        ensures made { IfOk result (λ p. p ≡ wheel [] size) }
        ensures succeeds { size ≡ 0 → IsOk result }
        ensures cause { HasCause memory.old memory.new result }
    {
        let waiting = memory.queue(size as usize)?;
        Ok(DueList { waiting, size })
    }

    /// How many entries wait.
    pub fn len(&self) -> u32
        ensures len { result ≡ length self.now.items }
        ensures within { result ≤ self.now.size }
    {
        self.waiting.len() as u32
    }

    /// Puts an entry behind those that are due no later, in a pacer that isn't full. `due` is in
    /// microseconds.
    pub fn add(&mut self, due: u64, entry: Entry)
        requires room { length self.old.items < self.old.size }
        ensures { self.new ≡ wheel (added due entry self.old.items) self.old.size }
    {
        let place = self.waiting.partition_point(|paced| paced.due <= due);
        let Ok(()) = self.waiting.insert(place, Paced { due, entry }) else {
            unreachable!()
        };
    }

    /// The entry that is due first, among equals the one added first, with its due time. None comes
    /// exactly where no entry waits.
    pub fn front(&self) -> Option<Paced>
        ensures front { result ≡ slice_get self.now.items 0 }
        ensures first { IfSome result (λ p. AllByRecursion (λ q. p.due ≤ q.due) self.now.items) }
    {
        first_of(&self.waiting)
    }

    /// That entry where it is due at `now`.
    pub fn first_due(&self, now: u64) -> Option<Paced>
        ensures { result ≡ least (is_due now) due_of self.now.items }
    {
        self.sound();
        let Some(first) = self.front() else {
            return None;
        };
        if first.due > now {
            return None;
        }
        Some(first)
    }

    /// Takes that entry out. None comes exactly where no entry waits.
    pub fn pop(&mut self) -> Option<Entry>
        ensures front { result ≡ option_map entry_of (slice_get self.old.items 0) }
        ensures rest { self.new ≡ wheel (drop 1 self.old.items) self.old.size }
    {
        let Some(paced) = self.waiting.pop_front() else {
            return None;
        };
        Some(entry_in(&paced))
    }

    /// The least number among that owner's entries. None comes exactly where it has no entry.
    pub fn least(&self, owner: &Owner) -> Option<u16>
        ensures least { result ≡ least_number (is_of owner.now) number_of self.now.items }
        ensures none { IsNone result ↔ (list_any (is_of owner.now) self.now.items ≡ false) }
    {
        least_of(&self.waiting, owner)
    }

    /// Tells whether that owner's packet of this number waits.
    pub fn holds(&self, owner: &Owner, number: u16) -> bool
        ensures { result ≡ list_any (is_entry_of owner.now number) self.now.items }
    {
        self.waiting.iter().any(|paced| paced.entry.owner.is_same(*owner)
            && paced.entry.number == number)
    }

    /// The entry that is due first among that owner's of this number.
    pub fn first_with(&self, owner: &Owner, number: u16) -> Option<Paced>
        ensures { result ≡ find (is_entry_of owner.now number) self.now.items }
    {
        found(&self.waiting, owner, number)
    }

    /// Takes that entry out. The others keep their order.
    pub fn take_with(&mut self, owner: &Owner, number: u16) -> Option<Paced>
        ensures taken { result ≡ find (is_entry_of owner.now number) self.old.items }
        ensures left { self.new
            ≡ wheel (without_first (is_entry_of owner.now number) self.old.items) self.old.size }
    {
        take_out(&mut self.waiting, owner, number)
    }

    /// What always holds of a list holds of this one.
    pub fn sound(&self)
        ensures sorted { IsNonDecreasingBy due_of self.now.items }
        ensures within { length self.now.items ≤ self.now.size }
    {
        let _size = self.size;
    }
}

fn entry_in(paced: &Paced) -> Entry
    ensures { result ≡ paced.now.entry }
{
    paced.entry
}

// The least number among that owner's entries, if it has one.
fn least_of(waiting: &VecDeque<Paced>, owner: &Owner) -> Option<u16>
    ensures { result ≡ least_number (is_of owner.now) number_of waiting.now.items }
{
    let mut least = None;
    for paced in waiting {
        if paced.entry.owner.is_same(*owner) {
            least = Some(smaller_of(paced.entry.number, least));
        }
    }
    least
}

// The front entry.
fn first_of(waiting: &VecDeque<Paced>) -> Option<Paced>
    ensures { result ≡ slice_get waiting.now.items 0 }
{
    match waiting.front() {
        Some(paced) => Some(*paced),
        None => None,
    }
}

// Where that owner's first packet of this number waits, if it does.
fn place_of(waiting: &VecDeque<Paced>, owner: &Owner, number: u16) -> Option<usize>
    ensures { result ≡ position (is_entry_of owner.now number) waiting.now.items }
{
    waiting.iter().position(|paced| paced.entry.owner.is_same(*owner)
        && paced.entry.number == number)
}

// The packet that waits there.
fn found(waiting: &VecDeque<Paced>, owner: &Owner, number: u16) -> Option<Paced>
    ensures { result ≡ find (is_entry_of owner.now number) waiting.now.items }
{
    let Some(place) = place_of(waiting, owner, number) else {
        return None;
    };
    Some(at(waiting, place))
}

// Entry `i`, which has to be there.
fn at(waiting: &VecDeque<Paced>, i: usize) -> Paced
    requires { i < length waiting.now.items }
    ensures { slice_get waiting.now.items i ≡ Some result }
{
    waiting[i]
}

// Takes it out.
fn take_out(waiting: &mut VecDeque<Paced>, owner: &Owner, number: u16) -> Option<Paced>
    ensures taken { result ≡ find (is_entry_of owner.now number) waiting.old.items }
    ensures left { waiting.new.items
        ≡ without_first (is_entry_of owner.now number) waiting.old.items }
    ensures capacity { deque_capacity waiting.new ≡ deque_capacity waiting.old }
{
    let Some(place) = place_of(waiting, owner, number) else {
        return None;
    };
    let Some(paced) = waiting.remove(place) else {
        unreachable!()
    };
    Some(paced)
}
