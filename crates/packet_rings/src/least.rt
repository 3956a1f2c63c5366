//! The entry of least number of an owner.
ghost use Rattle.std.specs.Prelude.{◌≡◌, ◌≤◌, length};
ghost use Rattle.rpc_base.specs.Least.{smaller, least_number, least, without_least};
ghost use Rattle.circular_buffer.specs.Buffer.{buffer};
ghost use Rattle.packet_rings.specs.Entries.{is_of, number_of};

use crate::entry::Entry;
use crate::turning::take_out;
use circular_buffer::HeapCircularBuffer;
use rpc_base::Owner;

// The smaller of a number and another that may be there.
fn smaller_of(number: u16, other: Option<u16>) -> u16
    ensures { result ≡ smaller number other }
{
    match other {
        Some(other) => number.min(other),
        None => number,
    }
}

/// The least number among that owner's entries, if it has one.
pub fn least_of(entries: &HeapCircularBuffer<Entry>, owner: &Owner) -> Option<u16>
    ensures { result ≡ least_number (is_of owner.now) number_of entries.now.items }
{
    let mut least = None;
    for entry in entries {
        if entry.owner.is_same(*owner) {
            least = Some(smaller_of(entry.number, least));
        }
    }
    least
}

/// Takes out that owner's entry of least number, the first of equals, if it has one.
pub fn take_least(entries: &mut HeapCircularBuffer<Entry>, owner: &Owner) -> Option<Entry>
    requires within { length entries.old.items ≤ entries.old.capacity }
    ensures taken { result ≡ least (is_of owner.now) number_of entries.old.items }
    ensures within { length entries.new.items ≤ entries.new.capacity }
    ensures left { entries.new ≡ buffer (without_least (is_of owner.now) number_of
        entries.old.items) entries.old.capacity }
{
    let Some(number) = least_of(entries, owner) else {
        return None;
    };
    take_out(entries, owner, number)
}
