//! Turning a ring, so that an entry within it comes to the front.
ghost use Rattle.std.specs.Prelude.{◌≡◌, ◌<◌, ◌≤◌, ◌++◌, length, drop, take, slice_get};
ghost use Rattle.std.specs.List.{find, position_or_len};
ghost use Rattle.rpc_base.specs.Tables.{without_first};
ghost use Rattle.circular_buffer.specs.Buffer.{buffer};
ghost use Rattle.packet_rings.specs.Entries.{is_entry, option_is};

use crate::entry::Entry;
use circular_buffer::HeapCircularBuffer;
use rpc_base::Owner;

// Moves the front entry to the back.
fn turn(entries: &mut HeapCircularBuffer<Entry>)
    requires some { 0 < length entries.old.items }
    requires within { length entries.old.items ≤ entries.old.capacity }
    ensures { entries.new ≡ buffer (drop 1 entries.old.items ++ take 1 entries.old.items)
        entries.old.capacity }
{
    if let Some(entry) = entries.pop_front() {
        // One place is free, so the ring gives up nothing.
        let _none = entries.push_back(entry);
    }
}

// Moves the first `count` entries to the back, in order.
fn turn_by(entries: &mut HeapCircularBuffer<Entry>, count: usize)
    requires some { count ≤ length entries.old.items }
    requires within { length entries.old.items ≤ entries.old.capacity }
    ensures { entries.new ≡ buffer (drop count entries.old.items ++ take count entries.old.items)
        entries.old.capacity }
{
    for _i in 0..count {
        turn(entries);
    }
}

// Moves the entries in front of that owner's first packet of this number to the back, and tells how
// many they are: all where it has none.
fn turn_to(entries: &mut HeapCircularBuffer<Entry>, owner: &Owner, number: u16) -> usize
    requires within { length entries.old.items ≤ entries.old.capacity }
    ensures before { result ≡ position_or_len (is_entry owner.now number) entries.old.items }
    ensures bound { result ≤ length entries.old.items }
    ensures turned { entries.new ≡ buffer (drop result entries.old.items
        ++ take result entries.old.items) entries.old.capacity }
{
    let len = entries.len();
    for i in 0..len {
        if is_in_front(entries, owner, number) {
            return i;
        }
        turn(entries);
    }
    len
}

/// Takes out that owner's first packet of this number, if it has one. The ring turns once, so that
/// the others end where they stood.
pub fn take_out(
    entries: &mut HeapCircularBuffer<Entry>,
    owner: &Owner,
    number: u16,
) -> Option<Entry>
    requires within { length entries.old.items ≤ entries.old.capacity }
    ensures taken { result ≡ find (is_entry owner.now number) entries.old.items }
    ensures within { length entries.new.items ≤ entries.new.capacity }
    ensures left { entries.new ≡ buffer (without_first (is_entry owner.now number)
        entries.old.items) entries.old.capacity }
{
    let len = entries.len();
    let before = turn_to(entries, owner, number);
    // After a whole turn each entry stands where it stood.
    if before == len {
        return None;
    }
    let entry = entries.pop_front();
    turn_by(entries, len - before - 1);
    entry
}

// Whether the front entry is that owner's packet of this number.
fn is_in_front(entries: &HeapCircularBuffer<Entry>, owner: &Owner, number: u16) -> bool
    ensures { result ≡ option_is (is_entry owner.now number) (slice_get entries.now.items 0) }
{
    match entries.front() {
        Some(entry) => entry.owner.is_same(*owner) && entry.number == number,
        None => false,
    }
}
