//! A sink that grows with what is written.
ghost use Rattle.std.specs.Prelude.{◌≡◌, ◌<◌, ◌≤◌, [], length, take, Some, IfOk, OnErr};
ghost use Rattle.std.specs.Io.KnownBytes.{Appends, Keeps};
ghost use Rattle.memory_count.specs.Faults.{HasCause};
ghost use Rattle.rpc_outside.specs.Writing.{Written};

use memory_count::Memory;
use rpc_outside::{Failed, Sink};
use std::alloc::Global;

/// What was written so far. A write fails where there is no memory for it.
#[derive(Drop)]
pub struct Text {
    bytes: Vec<u8>,
    memory: Memory,
}

impl Text {
    /// Nothing was written yet.
    pub fn new(alloc: Global) -> Text
        ensures bytes { result.bytes.items ≡ [] }
        ensures memory { result.memory ≡ 0 }
    {
        Text {
            bytes: Vec::new(alloc),
            memory: Memory::new(alloc),
        }
    }

    /// Its memory, which tells how often it was refused.
    pub fn memory(&self) -> &Memory
        ensures { result.now ≡ self.now.memory }
    {
        &self.memory
    }

    /// As if nothing was written yet, but for the room.
    pub fn clear(&mut self)
        ensures bytes { self.new.bytes.items ≡ [] }
        ensures memory { self.new.memory ≡ 0 }
    {
        self.bytes.clear();
        self.memory = Memory::new(self.memory.alloc());
    }

    /// Lends what was written.
    pub fn bytes(&self) -> &[u8]
        ensures { result.now ≡ self.now.bytes.items }
    {
        self.bytes.as_slice()
    }
}

impl Sink for Text {
    ghost page = { λ t. record { written = Some t.bytes.items; faults = t.memory } };

    /// Takes the whole piece, or fails where there is no memory for it.
    fn write(&mut self, piece: &[u8]) -> Result<usize, Failed>
        ensures within { IfOk result (λ n. n ≤ length piece.now) }
        ensures some { IfOk result (λ n. 0 < length piece.now → 0 < n) }
        ensures bytes { IfOk result (λ n. Appends (Some self.old.bytes.items)
            (Some self.new.bytes.items) (take n piece.now)) }
        ensures kept { OnErr result (Keeps (Some self.old.bytes.items)
            (Some self.new.bytes.items)) }
        ensures cause { HasCause self.old.memory self.new.memory result }
    {
        match self.memory.of(self.bytes.extend_from_slice(piece)) {
            Ok(()) => Ok(piece.len()),
            Err(_) => Err(Failed),
        }
    }
}
