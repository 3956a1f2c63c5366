//! The packets that go into the next datagram.
ghost use Rattle.std.specs.Prelude.{◌≡◌, ◌+◌, ◌≤◌, ◌↔◌, [], ◌∷◌, ◌++◌, true, false, length};
ghost use Rattle.std.specs.Prelude.{vec_len, vec_capacity, IfOk, IsTrue};
ghost use Rattle.memory_count.specs.Faults.{HasCause};
ghost use Rattle.packet_frames.specs.Frames.{HasNoRoom, datagram_of, item, items};

use crate::sizes::{FRAME_BYTE, LENGTH_BYTES, MOST_FRAME_BYTES, MOST_PACKET_BYTES};
use memory_count::{Memory, NoMemory};
use std::marker::Model;

/// The packets that go into the next datagram. Contracts see the list of them.
#[derive(Drop)]
pub struct Frame {
    // The frame's first byte, and the row of packets.
    bytes: Vec<u8>,
    count: usize,
}

impl Model for Frame {
    ghost use Rattle.std.specs.Prelude.{◌≡◌, ◌≤◌, ℕ, List, ◌∷◌, drop, length, vec_capacity};
    ghost use Rattle.packet_frames.specs.Frames.{items, packets_of};
    ghost use Rattle.packet_frames.specs.declared.sizes.TheConstants.{FRAME_BYTE, MOST_FRAME_BYTES};

    ghost Value = { List (List ℕ) };

    ghost view = { λ f. packets_of (drop 1 f.bytes.items) };

    ghost invariant = { λ f.
        (f.bytes.items ≡ FRAME_BYTE ∷ items (packets_of (drop 1 f.bytes.items)))
        × (f.count ≡ length (packets_of (drop 1 f.bytes.items)))
        × (length f.bytes.items ≤ MOST_FRAME_BYTES)
        × (MOST_FRAME_BYTES ≤ vec_capacity f.bytes) };
}

impl Frame {
    /// A frame without packets. It takes all memory that it will need now.
    pub fn new(memory: &mut Memory) -> Result<Frame, NoMemory>
        ensures empty { IfOk result (λ f. f ≡ []) }
        ensures cause { HasCause memory.old memory.new result }
    {
        let mut bytes = memory.list(MOST_FRAME_BYTES as usize)?;
        bytes.push_reserved(FRAME_BYTE);
        Ok(Frame { bytes, count: 0 })
    }

    /// Tells whether there is no packet in it.
    pub fn is_empty(&self) -> bool
        ensures { IsTrue result ↔ (self.now ≡ []) }
    {
        self.count == 0
    }

    /// Lends the datagram of its packets.
    pub fn datagram(&self) -> &[u8]
        ensures { result.now ≡ datagram_of self.now }
    {
        let bytes = self.bytes.as_slice();
        if self.count == 1 {
            &bytes[1 + LENGTH_BYTES..]
        } else {
            bytes
        }
    }

    /// Its packets are gone.
    pub fn clear(&mut self)
        ensures { self.new ≡ [] }
    {
        self.bytes.truncate(1);
        self.count = 0;
    }

    // Whether a packet of so many bytes has room.
    fn has_room(&self, len: usize, most: u32) -> bool
        requires packet { len ≤ MOST_PACKET_BYTES }
        requires most { most ≤ MOST_FRAME_BYTES }
        ensures full { (result ≡ false) ↔ HasNoRoom self.now most len }
        ensures within { result ≡ true
            → length (FRAME_BYTE ∷ items self.now) + LENGTH_BYTES + len ≤ MOST_FRAME_BYTES }
    {
        self.count == 0 || self.bytes.len() + LENGTH_BYTES + len <= most as usize
    }

    /// Puts a packet of this head and body behind the others. It has no room exactly where there
    /// are others, and the datagram would have more than `most` bytes.
    pub fn push(&mut self, head: &[u8], body: &[u8], most: u32) -> bool
        requires packet { length head.now + length body.now ≤ MOST_PACKET_BYTES }
        requires most { most ≤ MOST_FRAME_BYTES }
        ensures put { result ≡ true → self.new ≡ self.old ++ (head.now ++ body.now) ∷ [] }
        ensures unchanged { result ≡ false → self.new ≡ self.old }
        ensures full { (result ≡ false)
            ↔ HasNoRoom self.old most (length head.now + length body.now) }
    {
        if !self.has_room(head.len() + body.len(), most) {
            return false;
        }
        put_item(&mut self.bytes, head, body);
        self.count += 1;
        true
    }
}

// Puts a piece at the end, for which there is memory.
fn append(bytes: &mut Vec<u8>, piece: &[u8])
    requires { vec_len bytes.old + length piece.now ≤ vec_capacity bytes.old }
    ensures bytes { bytes.new.items ≡ bytes.old.items ++ piece.now }
    ensures capacity { vec_capacity bytes.old ≤ vec_capacity bytes.new }
{
    let _done = bytes.extend_from_slice(piece);
}

// Puts a packet at the end of a row, behind its length.
fn put_item(row: &mut Vec<u8>, head: &[u8], body: &[u8])
    requires room { vec_len row.old + LENGTH_BYTES + length head.now + length body.now
        ≤ vec_capacity row.old }
    requires short { length head.now + length body.now ≤ MOST_PACKET_BYTES }
    ensures put { row.new.items ≡ row.old.items ++ item (head.now ++ body.now) }
    ensures capacity { vec_capacity row.old ≤ vec_capacity row.new }
{
    let len = head.len() + body.len();
    append(row, &[(len / 256) as u8, (len % 256) as u8]);
    append(row, head);
    append(row, body);
}
