//! The receive ring.
ghost use Rattle.std.specs.Prelude.{◌≡◌, ◌<◌, ◌≤◌, ◌↔◌, [], ◌∷◌, ◌++◌, length, drop, slice_get};
ghost use Rattle.std.specs.Prelude.{option_copied, vec_capacity, IfOk, IsTrue};
ghost use Rattle.memory_count.specs.Faults.{HasCause};
ghost use Rattle.packet_rings.specs.Rings.{ring};
ghost use Rattle.packet_rings.specs.Values.{datagram};

use crate::datagram::Datagram;
use circular_buffer::HeapCircularBuffer;
use memory_count::{Memory, NoMemory};
use rpc_base::{MOST_DATAGRAM_BYTES, Peer};
use std::marker::Model;

/// The datagrams that arrived and wait to be handled, the oldest in front, in a ring of fixed size.
#[derive(Drop)]
pub struct RxRing {
    /// Those that wait.
    datagrams: HeapCircularBuffer<Box<Datagram>>,
    /// The places without a datagram. The last one given back is written first, so that few are
    /// used as long as few wait.
    free: Vec<Box<Datagram>>,
}

impl Model for RxRing {
    ghost use Rattle.std.specs.Prelude.{◌≡◌, ◌+◌, ◌^◌, ◌<◌, ◌≤◌, length, map, vec_capacity};
    ghost use Rattle.packet_rings.specs.Values.{DatagramValue};
    ghost use Rattle.packet_rings.specs.Rings.{Ring, ring};

    ghost Value = { Ring DatagramValue };

    ghost view = { λ r. ring (map (λ d. d.value) r.datagrams.items) r.datagrams.capacity };

    ghost invariant = { λ r. (length r.datagrams.items + length r.free.items
        ≡ r.datagrams.capacity)
        × (r.datagrams.capacity ≤ vec_capacity r.free)
        × (r.datagrams.capacity < 2 ^ 32) };
}

// So many places without a datagram.
fn empty_places(memory: &mut Memory, count: u32) -> Result<Vec<Box<Datagram>>, NoMemory>
    ensures places { IfOk result (λ v. length v.items ≡ count) }
    ensures room { IfOk result (λ v. count ≤ vec_capacity v) }
    ensures cause { HasCause memory.old memory.new result }
{
    let mut places = memory.list(count as usize)?;
    for _i in 0..count {
        let place = memory.boxed(Datagram::empty())?;
        places.push_reserved(place);
    }
    Ok(places)
}

impl RxRing {
    /// An empty ring of `size` datagrams, whose memory is taken here. A ring of size 0 is always
    /// full. `NoMemory` comes only where memory was refused.
    pub fn new(memory: &mut Memory, size: u32) -> Result<RxRing, NoMemory>
        ensures made { IfOk result (λ r. r ≡ ring [] size) }
        ensures cause { HasCause memory.old memory.new result }
    {
        let made = HeapCircularBuffer::with_capacity(memory.alloc(), size as usize);
        let datagrams = memory.of(made)?;
        let free = empty_places(memory, size)?;
        Ok(RxRing { datagrams, free })
    }

    /// How many datagrams wait.
    pub fn len(&self) -> u32
        ensures len { result ≡ length self.now.items }
        ensures within { result ≤ self.now.size }
    {
        self.datagrams.len() as u32
    }

    /// How many datagrams the ring may hold.
    pub fn size(&self) -> u32
        ensures size { result ≡ self.now.size }
        ensures within { length self.now.items ≤ self.now.size }
    {
        self.datagrams.capacity() as u32
    }

    /// Tells whether no datagram waits.
    pub fn is_empty(&self) -> bool
        ensures { IsTrue result ↔ (self.now.items ≡ []) }
    {
        self.datagrams.is_empty()
    }

    /// Copies a datagram of at most 1,044 bytes to the back of a ring that isn't full. It takes no
    /// memory.
    #[inline(always)]
    pub fn push(&mut self, peer: Peer, bytes: &[u8])
        requires room { length self.old.items < self.old.size }
        requires fits { length bytes.now ≤ MOST_DATAGRAM_BYTES }
        ensures { self.new ≡ ring (self.old.items ++ datagram peer bytes.now ∷ []) self.old.size }
    {
        let Some(mut place) = self.free.pop() else {
            unreachable!()
        };
        place.write(peer, bytes);
        // There is room, so the ring gives up nothing.
        let _none = self.datagrams.push_back(place);
    }

    /// Lends the oldest datagram. None exactly where the ring is empty.
    pub fn front(&self) -> Option<&Datagram>
        ensures { option_copied result ≡ slice_get self.now.items 0 }
    {
        let place = self.datagrams.front()?;
        Some(place)
    }

    /// Drops the oldest datagram: its place is free again. Nothing changes where the ring is empty.
    pub fn drop_front(&mut self)
        ensures { self.new ≡ ring (drop 1 self.old.items) self.old.size }
    {
        if let Some(place) = self.datagrams.pop_front() {
            self.free.push_reserved(place);
        }
    }
}
