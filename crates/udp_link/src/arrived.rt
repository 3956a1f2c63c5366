//! The datagram that came last, and what of it isn't given out yet.
ghost use Rattle.std.specs.Prelude.{◌≡◌, ◌≤◌, [], ◌∷◌, take, length, IfSome, MatchOption};
ghost use Rattle.memory_count.specs.Faults.{HasCause};

use crate::address::Address;
use crate::socket::receive;
use memory_count::{Memory, NoMemory};
use packet_frames::{MOST_FRAME_BYTES, MOST_PACKET_BYTES, next_packet};
use std::io;
use std::marker::Model;

/// The datagram that came last. Contracts see the packets of it that aren't given out yet.
#[derive(Drop)]
pub struct Arrived {
    bytes: Vec<u8>,
    len: usize,
    at: usize,
}

impl Model for Arrived {
    ghost use Rattle.std.specs.Prelude.{◌≤◌, ℕ, List, take, vec_len};
    ghost use Rattle.packet_frames.specs.Frames.{packets_from};

    ghost Value = { List (List ℕ) };

    ghost view = { λ a. packets_from a.at (take a.len a.bytes.items) };

    ghost invariant = { λ a. (a.at ≤ a.len) × (a.len ≤ vec_len a.bytes) };
}

impl Arrived {
    /// Nothing came. It takes all memory that it will need now.
    pub fn new(memory: &mut Memory) -> Result<Arrived, NoMemory>
        ensures cause { HasCause memory.old memory.new result }
    {
        let mut bytes = Vec::new(memory.alloc());
        memory.of(bytes.resize(MOST_FRAME_BYTES as usize, 0))?;
        Ok(Arrived {
            bytes,
            len: 0,
            at: 0,
        })
    }

    /// What isn't given out is dropped.
    pub fn clear(&mut self)
        ensures { self.new ≡ [] }
    {
        self.len = 0;
        self.at = 0;
    }

    /// The datagram.
    pub fn datagram(&self) -> &[u8] {
        &self.bytes[..self.len]
    }

    /// Whether all of it was given out.
    pub fn is_done(&self) -> bool {
        self.at >= self.len
    }

    /// The next datagram of a socket takes the place of the one that was.
    pub fn receive(&mut self, fd: i32, from: &mut Address) -> io::Result<()> {
        self.len = 0;
        self.at = 0;
        let len = receive(fd, self.bytes.as_mut_slice(), from)?;
        self.len = len.min(self.bytes.len());
        Ok(())
    }

    /// Gives out the next packet: its bytes become the front of `out`. None comes exactly where all
    /// were given out.
    pub fn next(&mut self, out: &mut [u8]) -> Option<usize>
        requires { MOST_PACKET_BYTES ≤ length out.old }
        ensures next { MatchOption result (self.old ≡ [])
            (λ n. self.old ≡ take n out.new ∷ self.new) }
        ensures short { IfSome result (λ n. n ≤ MOST_PACKET_BYTES) }
    {
        let datagram = &self.bytes[..self.len];
        let Some(span) = next_packet(datagram, self.at) else {
            self.clear();
            return None;
        };
        let len = span.end - span.start;
        out[..len].copy_from_slice(&datagram[span.start..span.end]);
        self.at = span.end;
        Some(len)
    }
}
