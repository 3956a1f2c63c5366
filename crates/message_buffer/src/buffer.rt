//! A message's buffer.
ghost use Rattle.std.specs.Prelude.{◌≡◌, ◌<◌, ◌≤◌, ◌+◌, ℕ, Some, length, replicate, All, IfOk};
ghost use Rattle.std.specs.Prelude.{slice_get};
ghost use Rattle.std.specs.Borrow.{sem};
ghost use Rattle.memory_count.specs.Faults.{HasCause};
ghost use Rattle.packet_header.specs.Parts.{packet_count, part};
ghost use Rattle.message_buffer.specs.Buffer.{bytes_of, capacity_of, stamped, with_len, written};

use crate::block::{block_bytes, head_at};
use memory_count::{Memory, NoMemory};
use packet_header::part_len;
use rpc_base::{HEAD_BYTES, MOST_CAPACITY, PART_BYTES};
use std::marker::Model;

/// A message and the headers of its packets, in one block of memory. Contracts see its length, its
/// data bytes (as many as its capacity) and its heads, and nothing of the block.
#[derive(Debug, Drop)]
pub struct MsgBuf {
    block: Vec<u8>,
    capacity: u32,
    len: u32,
}

impl Model for MsgBuf {
    ghost use Rattle.message_buffer.specs.Buffer.{Buffer};
    ghost use Rattle.message_buffer.specs.Block.{buffer_in, FitsBlock};

    ghost Value = { Buffer };

    ghost view = { λ b. buffer_in b.block.items b.capacity b.len };

    ghost invariant = { λ b. FitsBlock b.block.items b.capacity b.len };
}

impl MsgBuf {
    ghost use Rattle.message_buffer.specs.Lending.{lends_message};

    /// A buffer of `capacity` bytes, at most `MOST_CAPACITY`. Its length is 0; all its bytes and
    /// heads are zero. `NoMemory` comes only where memory was refused.
    pub fn new(memory: &mut Memory, capacity: u32) -> Result<MsgBuf, NoMemory>
        requires { capacity ≤ MOST_CAPACITY }
        ensures empty { IfOk result (λ b. b.len ≡ 0) }
        ensures capacity { IfOk result (λ b. capacity_of b ≡ capacity) }
        ensures zeros { IfOk result (λ b. All (λ byte. byte ≡ 0) b.store) }
        ensures heads { IfOk result (λ b. length b.heads ≡ packet_count capacity) }
        ensures zero_heads { IfOk result (λ b. (k : ℕ) → k < packet_count capacity
            → slice_get b.heads k ≡ Some (replicate HEAD_BYTES 0)) }
        ensures cause { HasCause memory.old memory.new result }
    {
        let alloc = memory.alloc();
        let block = memory.of(vec![in alloc; 0; block_bytes(capacity)])?;
        Ok(MsgBuf {
            block,
            capacity,
            len: 0,
        })
    }

    /// A buffer that holds these bytes, at most `MOST_CAPACITY` of them, as its message: its
    /// capacity is their count. `NoMemory` comes only where memory was refused.
    pub fn of(memory: &mut Memory, bytes: &[u8]) -> Result<MsgBuf, NoMemory>
        requires { length bytes.now ≤ MOST_CAPACITY }
        ensures message { IfOk result (λ b. bytes_of b ≡ bytes.now) }
        ensures capacity { IfOk result (λ b. capacity_of b ≡ length bytes.now) }
        ensures cause { HasCause memory.old memory.new result }
    {
        let len = bytes.len() as u32;
        let mut message = MsgBuf::new(memory, len)?;
        message.set_len(len);
        message.write(0, bytes);
        Ok(message)
    }

    /// How long the message may become, in bytes: at most `MOST_CAPACITY`.
    pub fn capacity(&self) -> u32
        ensures capacity { result ≡ capacity_of self.now }
        ensures most { result ≤ MOST_CAPACITY }
    {
        self.capacity
    }

    /// The length of the message, in bytes: at most the capacity.
    pub fn len(&self) -> u32
        ensures len { result ≡ self.now.len }
        ensures within { result ≤ capacity_of self.now }
    {
        self.len
    }

    /// Lends the message.
    pub fn bytes(&self) -> &[u8]
        ensures message { result.now ≡ bytes_of self.now }
        ensures len { length result.now ≡ self.now.len }
    {
        &self.block[HEAD_BYTES..HEAD_BYTES + self.len as usize]
    }

    /// Gives the message another length, at most the capacity. No byte changes: what a longer
    /// message shows is what was written there before.
    pub fn set_len(&mut self, n: u32)
        requires { n ≤ capacity_of self.old }
        ensures { self.new ≡ with_len n self.old }
    {
        self.len = n;
    }

    /// Writes bytes into the message from byte `at` on. They have to end within the message.
    pub fn write(&mut self, at: u32, from: &[u8])
        requires { at + length from.now ≤ self.old.len }
        ensures { self.new ≡ written at from.now self.old }
    {
        let start = HEAD_BYTES + at as usize;
        self.block[start..start + from.len()].copy_from_slice(from);
    }

    /// Lends the message to be written to.
    pub fn whole_mut(&mut self) -> &mut [u8]
        ensures* writes_back { sem 𝓛 (lends_message self.entry result) }
        ensures message { result.now ≡ bytes_of self.old }
        ensures len { length result.now ≡ self.old.len }
        ensures within { self.old.len ≤ capacity_of self.old }
    {
        let end = HEAD_BYTES + self.len as usize;
        self.block.slice_mut(HEAD_BYTES..end)
    }

    /// Writes the header of packet `index`, one of the message's packets.
    pub fn stamp(&mut self, index: u32, head: &[u8; HEAD_BYTES])
        requires { index < packet_count self.old.len }
        ensures { self.new ≡ stamped index head.now self.old }
    {
        let start = head_at(self.capacity, index);
        self.block[start..start + HEAD_BYTES].copy_from_slice(head);
    }

    /// Lends the header and the part of packet `index`, one of the message's packets.
    pub fn packet(&self, index: u32) -> (&[u8], &[u8])
        requires { index < packet_count self.now.len }
        ensures head { slice_get self.now.heads index ≡ Some result.0.now }
        ensures head_len { length result.0.now ≡ HEAD_BYTES }
        ensures part { result.1.now ≡ part (bytes_of self.now) index }
    {
        let head = head_at(self.capacity, index);
        let part = HEAD_BYTES + PART_BYTES as usize * index as usize;
        let part_end = part + part_len(self.len, index) as usize;
        (
            &self.block[head..head + HEAD_BYTES],
            &self.block[part..part_end],
        )
    }
}
