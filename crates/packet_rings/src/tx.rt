//! The transmit ring.
ghost use Rattle.std.specs.Prelude.{◌≡◌, ◌<◌, ◌≤◌, ◌↔◌, [], ◌∷◌, ◌++◌, ◌+◌, ℕ, false, length, drop};
ghost use Rattle.std.specs.Prelude.{count_by, slice_get, option_copied, IfOk, IfSome, IfNone};
ghost use Rattle.std.specs.Prelude.{IsNone, IsTrue};
ghost use Rattle.std.specs.List.{list_any, filter, Contains};
ghost use Rattle.memory_count.specs.Faults.{HasCause};
ghost use Rattle.rpc_base.specs.Least.{least_number, least, without_least};
ghost use Rattle.packet_rings.specs.Entries.{is_of, is_not_of, is_entry, is_reply, listed_entry};
ghost use Rattle.packet_rings.specs.Entries.{number_of, NoneLower};
ghost use Rattle.packet_rings.specs.Mentions.{mentions};
ghost use Rattle.rpc_base.specs.Taking.{TakenOut};
ghost use Rattle.packet_rings.specs.Rings.{ring};

use crate::entry::Entry;
use crate::least::{least_of, take_least};
use circular_buffer::HeapCircularBuffer;
use memory_count::{Memory, NoMemory};
use rpc_base::Owner;
use std::marker::Model;

/// The packets that were posted and are neither sent nor flushed, the oldest in front, in a ring of
/// fixed size.
#[derive(Drop)]
pub struct TxRing {
    entries: HeapCircularBuffer<Entry>,
    /// How many of them are replies.
    replies: u32,
}

impl Model for TxRing {
    ghost use Rattle.std.specs.Prelude.{◌≡◌, ◌^◌, ◌<◌, ◌≤◌, count_by, length};
    ghost use Rattle.packet_rings.specs.Entries.{is_reply};
    ghost use Rattle.packet_rings.specs.Values.{EntryValue};
    ghost use Rattle.packet_rings.specs.Rings.{Ring, ring};

    ghost Value = { Ring EntryValue };

    ghost view = { λ r. ring r.entries.items r.entries.capacity };

    ghost invariant = { λ r. (length r.entries.items ≤ r.entries.capacity)
        × (r.entries.capacity < 2 ^ 32)
        × (r.replies ≡ count_by is_reply r.entries.items) };
}

// How many replies an entry is.
fn count_of(entry: &Entry) -> u32
    ensures { result ≡ count_by is_reply (entry.now ∷ []) }
{
    match entry.owner {
        Owner::Reply { .. } => 1,
        Owner::Ask { .. } | Owner::Control => 0,
    }
}

// How many replies stand in that place.
fn count_in(entry: &Option<Entry>) -> u32
    ensures { result ≡ count_by is_reply (listed_entry entry.now) }
{
    match entry {
        Some(entry) => count_of(entry),
        None => 0,
    }
}

impl TxRing {
    /// An empty ring of `size` entries, whose memory is taken here. A ring of size 0 takes no
    /// entry. `NoMemory` comes only where memory was refused.
    pub fn new(memory: &mut Memory, size: u32) -> Result<TxRing, NoMemory>
        ensures made { IfOk result (λ r. r ≡ ring [] size) }
        ensures cause { HasCause memory.old memory.new result }
    {
        let made = HeapCircularBuffer::with_capacity(memory.alloc(), size as usize);
        let entries = memory.of(made)?;
        Ok(TxRing {
            entries,
            replies: 0,
        })
    }

    /// How many entries wait.
    pub fn len(&self) -> u32
        ensures len { result ≡ length self.now.items }
        ensures within { result ≤ self.now.size }
    {
        self.entries.len() as u32
    }

    /// How many entries the ring may hold.
    pub fn size(&self) -> u32
        ensures size { result ≡ self.now.size }
        ensures within { length self.now.items ≤ self.now.size }
    {
        self.entries.capacity() as u32
    }

    /// Tells whether no entry waits.
    pub fn is_empty(&self) -> bool
        ensures { IsTrue result ↔ (self.now.items ≡ []) }
    {
        self.entries.is_empty()
    }

    /// How many entries are replies.
    pub fn replies(&self) -> u32
        ensures { result ≡ count_by is_reply self.now.items }
    {
        self.replies
    }

    /// Puts an entry at the back of a ring that isn't full.
    pub fn push(&mut self, entry: Entry)
        requires room { length self.old.items < self.old.size }
        ensures { self.new ≡ ring (self.old.items ++ entry ∷ []) self.old.size }
    {
        self.replies += count_of(&entry);
        // There is room, so the ring gives up nothing.
        let _none = self.entries.push_back(entry);
    }

    /// Lends the oldest entry. None exactly where the ring is empty.
    pub fn front(&self) -> Option<&Entry>
        ensures { option_copied result ≡ slice_get self.now.items 0 }
    {
        self.entries.front()
    }

    /// Takes the oldest entry out. None exactly where the ring is empty.
    pub fn pop(&mut self) -> Option<Entry>
        ensures front { result ≡ slice_get self.old.items 0 }
        ensures rest { self.new ≡ ring (drop 1 self.old.items) self.old.size }
    {
        let entry = self.entries.pop_front();
        self.replies -= count_in(&entry);
        entry
    }

    /// The least number among that owner's entries. None exactly where it has no entry.
    pub fn least(&self, owner: Owner) -> Option<u16>
        ensures least { result ≡ least_number (is_of owner) number_of self.now.items }
        ensures none { IsNone result ↔ (list_any (is_of owner) self.now.items ≡ false) }
        ensures held { IfSome result (λ n. IsTrue (list_any (is_entry owner n) self.now.items)) }
        ensures lowest { IfSome result (λ n. NoneLower owner n self.now.items) }
    {
        least_of(&self.entries, &owner)
    }

    /// Tells whether that owner's packet of this number waits.
    pub fn holds(&self, owner: Owner, number: u16) -> bool
        ensures { result ≡ list_any (is_entry owner number) self.now.items }
    {
        self.entries.iter().any(|entry| entry.owner.is_same(owner) && entry.number == number)
    }

    /// Takes out that owner's entry of least number, among equals the one nearest to the front. The
    /// others keep their order. None exactly where the owner has no entry.
    pub fn flush(&mut self, owner: Owner) -> Option<Entry>
        ensures taken { result ≡ least (is_of owner) number_of self.old.items }
        ensures left { self.new ≡ ring (without_least (is_of owner) number_of self.old.items)
            self.old.size }
        ensures none { IsNone result ↔ (list_any (is_of owner) self.old.items ≡ false) }
        ensures unchanged { IfNone result (self.new ≡ self.old) }
        ensures listed { IfSome result (λ e. Contains self.old.items e × IsTrue (is_of owner e)) }
        ensures lowest { IfSome result (λ e. NoneLower owner e.number self.old.items) }
        // Of equals it stood nearest to the front, and what stood before and after it is left in
        // order.
        ensures nearest { IfSome result (λ e. TakenOut (is_entry owner e.number) e self.old.items
            self.new.items) }
        ensures others { filter (is_not_of owner) self.new.items
            ≡ filter (is_not_of owner) self.old.items }
        ensures fewer { IfSome result (λ _. length self.new.items + 1 ≡ length self.old.items) }
        // It takes away the one place that it names.
        ensures places { IfSome result (λ e. (p : ℕ) →
            mentions p self.old.items ≡ mentions p (e ∷ []) + mentions p self.new.items) }
    {
        let flushed = take_least(&mut self.entries, &owner);
        self.replies -= count_in(&flushed);
        flushed
    }
}
