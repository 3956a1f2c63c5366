//! The places round a cursor.
ghost use Rattle.std.specs.Prelude.{◌≡◌, ◌<◌, ◌≤◌, ◌↔◌, ◌+◌, ◌%◌, ◌^◌, [], cond, drop, length};
ghost use Rattle.std.specs.Prelude.{option_map, slice_get, IfOk, IsOk, IsTrue, ◌==◌};
ghost use Rattle.std.specs.List.{AllByRecursion, find, list_any};
ghost use Rattle.std.specs.List.Sorted.{IsNonDecreasingBy};
ghost use Rattle.memory_count.specs.Faults.{HasCause};
ghost use Rattle.rpc_base.specs.Tables.{without_first};
ghost use Rattle.rpc_base.specs.Least.{least, least_number};
ghost use Rattle.pacing_wheel.specs.Chains.{list_at};
ghost use Rattle.pacing_wheel.specs.Wheel.{added, dial, due_of, entry_of, is_due, is_entry_of};
ghost use Rattle.pacing_wheel.specs.Wheel.{behind, is_of, number_of, together, AllStand, Covers};
ghost use Rattle.pacing_wheel.specs.Wheel.{earlier, InOrder};
ghost use Rattle.rpc_base.proofs.LeastLemmas.{lesser};

use crate::chains::Chains;
use crate::choosing::{earlier, lesser};
use crate::pacer::Paced;
use memory_count::{Memory, NoMemory};
use packet_rings::Entry;
use rpc_base::Owner;
use std::marker::Model;

/// So many places of one microsecond.
pub const PLACES: u64 = 4_096;

/// The entries that are due within one turn of the places from a cursor on, which never falls. It
/// passes only empty places. A place has the entries that are due at its one time, by their adding.
#[derive(Drop)]
pub struct Dial {
    chains: Chains,
    cursor: u64,
    waiting: u32,
    size: u32,
}

impl Model for Dial {
    ghost use Rattle.std.specs.Prelude.{◌≡◌, ◌+◌, ◌<◌, ◌^◌, length};
    ghost use Rattle.pacing_wheel.specs.Wheel.{AllStand, Dial, dial, together};

    ghost Value = { Dial };

    ghost view = { λ d. dial d.cursor (together d.chains.lists) d.size };

    ghost invariant = { λ d. AllStand d.cursor 0 d.chains.lists
        × (length (together d.chains.lists) ≡ d.waiting) × (d.waiting + d.chains.spare ≡ d.size)
        × (0 < d.size → length d.chains.lists ≡ 4096) };
}

impl Dial {
    /// Empty places, for `size` entries, with the cursor at 0. `NoMemory` comes only where
    /// memory was refused; those of size 0 take none.
    pub fn new(memory: &mut Memory, size: u32) -> Result<Dial, NoMemory>
        ensures made { IfOk result (λ d. d ≡ dial 0 [] size) }
        ensures succeeds { size ≡ 0 → IsOk result }
        ensures cause { HasCause memory.old memory.new result }
    {
        let chains = Chains::new(memory, places_for(size), size)?;
        Ok(Dial {
            chains,
            cursor: 0,
            waiting: 0,
            size,
        })
    }

    /// How many entries wait.
    pub fn len(&self) -> u32
        ensures len { result ≡ length self.now.items }
        ensures within { result ≤ self.now.size }
    {
        self.waiting
    }

    /// Whether an entry that is due then has a place.
    pub fn covers(&self, due: u64) -> bool
        ensures { IsTrue result ↔ Covers self.now.cursor due }
    {
        self.cursor <= due && due - self.cursor < PLACES
    }

    /// Puts an entry behind those of its place.
    pub fn add(&mut self, due: u64, entry: Entry)
        requires room { length self.old.items < self.old.size }
        requires covers { Covers self.old.cursor due }
        ensures { self.new ≡ dial self.old.cursor (added due entry self.old.items) self.old.size }
    {
        self.chains.push(place_of(due), Paced { due, entry });
        self.waiting += 1;
    }

    /// The entry that is due first, where it is due at `now`. It looks at no place behind that
    /// time.
    pub fn first_due(&self, now: u64) -> Option<Paced>
        ensures { result ≡ least (is_due now) due_of self.now.items }
    {
        if now < self.cursor {
            return None;
        }
        let time = next_time(&self.chains, self.waiting, self.cursor, now);
        self.chains.first(place_of(time))
    }

    /// The entry that is due first.
    pub fn front(&self) -> Option<Paced>
        ensures { result ≡ slice_get self.now.items 0 }
    {
        self.sound();
        self.first_due(u64::MAX)
    }

    /// Takes that entry out. None comes exactly where no entry waits.
    pub fn pop(&mut self) -> Option<Entry>
        ensures front { result ≡ option_map entry_of (slice_get self.old.items 0) }
        ensures rest { self.new ≡ dial self.old.cursor (drop 1 self.old.items) self.old.size }
    {
        if self.waiting == 0 {
            return None;
        }
        let time = next_time(&self.chains, self.waiting, self.cursor, u64::MAX);
        let first = self.chains.pop(place_of(time));
        self.waiting -= 1;
        Some(first.entry)
    }

    /// Moves the cursor on to `now`, and no further than to the first entry.
    pub fn go_to(&mut self, now: u64)
        ensures same { self.new ≡ dial self.new.cursor self.old.items self.old.size }
        ensures on { self.old.cursor ≤ self.new.cursor }
    {
        if self.cursor < now {
            self.cursor = next_time(&self.chains, self.waiting, self.cursor, now);
        }
    }

    /// The least number among that owner's entries.
    pub fn least(&self, owner: &Owner) -> Option<u16>
        ensures { result ≡ least_number (is_of owner.now) number_of self.now.items }
    {
        if self.waiting == 0 {
            return None;
        }
        least_in(&self.chains, self.waiting, place_of(self.cursor), owner)
    }

    /// Whether that owner's packet of this number waits.
    pub fn holds(&self, owner: &Owner, number: u16) -> bool
        ensures { result ≡ list_any (is_entry_of owner.now number) self.now.items }
    {
        self.first_with(owner, number).is_some()
    }

    /// The entry that is due first among that owner's of this number.
    pub fn first_with(&self, owner: &Owner, number: u16) -> Option<Paced>
        ensures { result ≡ find (is_entry_of owner.now number) self.now.items }
    {
        if self.waiting == 0 {
            return None;
        }
        found_in(
            &self.chains,
            self.waiting,
            place_of(self.cursor),
            owner,
            number,
        )
    }

    /// Drops that entry. The others keep their order.
    pub fn drop_with(&mut self, owner: &Owner, number: u16)
        ensures { self.new ≡ dial self.old.cursor
            (without_first (is_entry_of owner.now number) self.old.items) self.old.size }
    {
        let Some(first) = self.first_with(owner, number) else {
            return;
        };
        self.chains.drop_with(place_of(first.due), owner, number);
        self.waiting -= 1;
    }

    /// What always holds of them holds of these.
    pub fn sound(&self)
        ensures sorted { IsNonDecreasingBy due_of self.now.items }
        ensures inside { AllByRecursion (λ p. Covers self.now.cursor p.due) self.now.items }
        ensures within { length self.now.items ≤ self.now.size }
        ensures fits { AllByRecursion (λ p. p.due ≤ 18446744073709551615) self.now.items }
    {
        let _size = self.size;
    }
}

// How many places there are for so many entries.
fn places_for(size: u32) -> usize
    ensures { result ≡ cond (size == 0) 0 4096 }
{
    if size == 0 { 0 } else { PLACES as usize }
}

// The place of a time.
fn place_of(time: u64) -> usize
    ensures { result ≡ time % 4096 }
{
    (time % PLACES) as usize
}

// The time of the first entry, or `limit` where none is due before. A cursor may go there from
// `cursor` on.
fn next_time(chains: &Chains, waiting: u32, cursor: u64, limit: u64) -> u64
    requires turn { AllStand cursor 0 chains.now.lists }
    requires waiting { length (together chains.now.lists) ≡ waiting }
    requires order { cursor ≤ limit }
    ensures turn { AllStand result 0 chains.now.lists }
    ensures from { cursor ≤ result }
    ensures to { result ≤ limit }
    ensures found { result < limit → 0 < length (list_at chains.now.lists (result % 4096)) }
{
    if waiting == 0 {
        return limit;
    }
    let mut time = cursor;
    while time < limit && chains.len_of(place_of(time)) == 0 {
        time += 1;
    }
    time
}

// What a walk over some of the places found, and how many entries it didn't see.
#[derive(Drop)]
struct Seen<T> {
    best: Option<T>,
    left: u32,
}

// The least number among that owner's entries of all lists. Places are looked at in the order of
// their times, up to the last entry.
fn least_in(chains: &Chains, waiting: u32, from: usize, owner: &Owner) -> Option<u16>
    requires from { from ≤ length chains.now.lists }
    requires waiting { length (together chains.now.lists) ≡ waiting }
    ensures { result ≡ least_number (is_of owner.now) number_of (together chains.now.lists) }
{
    let later = least_between(chains, from, chains.len(), waiting, owner);
    let sooner = least_between(chains, 0, from, later.left, owner);
    lesser(sooner.best, later.best)
}

// The same of the lists from `from` on and before `to`, where no more than `left` entries are.
fn least_between(chains: &Chains, from: usize, to: usize, left: u32, owner: &Owner) -> Seen<u16>
    requires order { from ≤ to }
    requires inside { to ≤ length chains.now.lists }
    requires enough { behind from chains.now.lists ≤ left + behind to chains.now.lists }
    ensures best { least_number (is_of owner.now) number_of (together (drop from chains.now.lists))
        ≡ lesser result.best (least_number (is_of owner.now) number_of
        (together (drop to chains.now.lists))) }
    ensures left { result.left + behind from chains.now.lists
        ≡ left + behind to chains.now.lists }
{
    let mut best = None;
    let mut unseen = left;
    let mut place = from;
    while place < to && unseen > 0 {
        best = lesser(best, chains.least(place, owner));
        unseen -= chains.len_of(place);
        place += 1;
    }
    Seen { best, left: unseen }
}

// The entry that is due first among that owner's of this number in all lists. Places are looked at
// in the order of their times, up to the last entry.
fn found_in(chains: &Chains, waiting: u32, from: usize, owner: &Owner, number: u16) -> Option<Paced>
    requires order { AllByRecursion InOrder chains.now.lists }
    requires from { from ≤ length chains.now.lists }
    requires waiting { length (together chains.now.lists) ≡ waiting }
    ensures { result ≡ find (is_entry_of owner.now number) (together chains.now.lists) }
{
    let later = found_between(chains, from, chains.len(), waiting, owner, number);
    let sooner = found_between(chains, 0, from, later.left, owner, number);
    earlier(sooner.best, later.best)
}

// The same of the lists from `from` on and before `to`, where no more than `left` entries are.
fn found_between(
    chains: &Chains,
    from: usize,
    to: usize,
    left: u32,
    owner: &Owner,
    number: u16,
) -> Seen<Paced>
    requires sorted { AllByRecursion InOrder chains.now.lists }
    requires order { from ≤ to }
    requires inside { to ≤ length chains.now.lists }
    requires enough { behind from chains.now.lists ≤ left + behind to chains.now.lists }
    ensures best { find (is_entry_of owner.now number) (together (drop from chains.now.lists))
        ≡ earlier result.best (find (is_entry_of owner.now number)
        (together (drop to chains.now.lists))) }
    ensures left { result.left + behind from chains.now.lists
        ≡ left + behind to chains.now.lists }
{
    let mut best = None;
    let mut unseen = left;
    let mut place = from;
    while place < to && unseen > 0 {
        best = earlier(best, chains.first_with(place, owner, number));
        unseen -= chains.len_of(place);
        place += 1;
    }
    Seen { best, left: unseen }
}
