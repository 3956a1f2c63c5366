//! A source and a sink in memory, which fail exactly where they are told to.
ghost use Rattle.std.specs.Prelude.{◌≡◌, ◌+◌, ◌<◌, ◌≤◌, ◌↔◌, ◌⊎◌, [], length, take, drop, min};
ghost use Rattle.std.specs.Prelude.{Some, IsErr, IsOk, IfOk, OnErr};
ghost use Rattle.std.specs.Io.KnownBytes.{Keeps, Appends, Consumes, IsAtEnd};
ghost use Rattle.memory_count.specs.Faults.{HasCause};
ghost use Rattle.rpc_outside.specs.CallLog.{IsNamed, IsLogged, fresh};

use crate::failed::Failed;
use crate::memory::calls::Calls;
use crate::memory::copying::copy_front;
use crate::sink::Sink;
use crate::source::Source;
use memory_count::{Memory, NoMemory};
use std::marker::Model;

/// A source that holds its bytes. Contracts see what is left and the log of its calls.
#[derive(Debug, Drop)]
pub struct MemSource {
    bytes: Vec<u8>,
    at: usize,
    calls: Calls,
}

impl Model for MemSource {
    ghost use Rattle.std.specs.Prelude.{◌≤◌, length, drop};
    ghost use Rattle.rpc_outside.specs.Memory.{Input};

    ghost Value = { Input };

    ghost view = { λ s. record { left = drop s.at s.bytes.items; log = s.calls } };

    ghost invariant = { λ s. s.at ≤ length s.bytes.items };
}

impl MemSource {
    /// A source of these bytes. `fails` names the calls that fail, the first call having number 0.
    pub fn new(bytes: Vec<u8>, fails: Vec<u64>) -> MemSource
        ensures { result ≡ record { left = bytes.items; log = fresh fails.items } }
    {
        MemSource {
            bytes,
            at: 0,
            calls: Calls::new(fails),
        }
    }
}

impl Source for MemSource {
    ghost input = { λ s. record { left = Some s.left; faults = s.log.faults } };

    /// Gives as many bytes as are left and fit into `out`. It fails exactly where its call is
    /// named.
    fn read(&mut self, out: &mut [u8]) -> Result<usize, Failed>
        requires { 0 < length out.old }
        ensures named { IsErr result ↔ IsNamed self.old.log }
        ensures fills { IfOk result (λ n. n ≡ min (length self.old.left) (length out.new)) }
        ensures within { IfOk result (λ n. n ≤ length out.new) }
        ensures bytes { IfOk result (λ n. Consumes (Some self.old.left) (Some self.new.left)
            (take n out.new)) }
        ensures end { IfOk result (λ n. n ≡ 0 → IsAtEnd (Some self.old.left)) }
        ensures kept { OnErr result (Keeps (Some self.old.left) (Some self.new.left)) }
        ensures cause { HasCause self.old.log.faults self.new.log.faults result }
        ensures logged { IsLogged self.old.log self.new.log result }
    {
        if self.calls.is_named() {
            self.calls.fail();
            return Err(Failed);
        }
        self.calls.pass();
        let count = copy_front(&self.bytes[self.at..], out);
        self.at += count;
        Ok(count)
    }
}

/// A sink that keeps what was written. Contracts see the bytes, the room and the log of its calls.
#[derive(Debug, Drop)]
pub struct MemSink {
    bytes: Vec<u8>,
    room: usize,
    calls: Calls,
}

impl Model for MemSink {
    ghost use Rattle.std.specs.Prelude.{◌≤◌, vec_len, vec_capacity};
    ghost use Rattle.rpc_outside.specs.Memory.{Output};

    ghost Value = { Output };

    ghost view = { λ s. record { written = s.bytes.items; room = s.room; log = s.calls } };

    ghost invariant = { λ s. (vec_len s.bytes ≤ s.room) × (s.room ≤ vec_capacity s.bytes) };
}

impl MemSink {
    /// A sink with room for `room` bytes in all, for which it takes the memory now. `fails` names
    /// the calls that fail, the first call having number 0. `NoMemory` comes only where memory was
    /// refused, and never without room, as none is taken then.
    pub fn new(memory: &mut Memory, room: u32, fails: Vec<u64>) -> Result<MemSink, NoMemory>
        ensures made { IfOk result (λ s. s ≡ record {
          written = [];
          room = room;
          log = fresh fails.items;
        }) }
        ensures succeeds { room ≡ 0 → IsOk result }
        ensures cause { HasCause memory.old memory.new result }
    {
        let bytes = memory.list(room as usize)?;
        Ok(MemSink {
            bytes,
            room: room as usize,
            calls: Calls::new(fails),
        })
    }

    /// Lends what was written.
    pub fn bytes(&self) -> &[u8]
        ensures { result.now ≡ self.now.written }
    {
        self.bytes.as_slice()
    }
}

impl Sink for MemSink {
    ghost page = { λ s. record { written = Some s.written; faults = s.log.faults } };

    /// Writes the whole piece. It fails exactly where its call is named, or where the piece doesn't
    /// fit into what is left of its room.
    fn write(&mut self, piece: &[u8]) -> Result<usize, Failed>
        ensures fails { IsErr result ↔ (IsNamed self.old.log
            ⊎ (self.old.room < length self.old.written + length piece.now)) }
        ensures whole { IfOk result (λ n. n ≡ length piece.now) }
        ensures within { IfOk result (λ n. n ≤ length piece.now) }
        ensures some { IfOk result (λ n. 0 < length piece.now → 0 < n) }
        ensures bytes { IfOk result (λ n. Appends (Some self.old.written) (Some self.new.written)
            (take n piece.now)) }
        ensures kept { OnErr result (Keeps (Some self.old.written) (Some self.new.written)) }
        ensures cause { HasCause self.old.log.faults self.new.log.faults result }
        ensures room { self.new.room ≡ self.old.room }
        ensures logged { IsLogged self.old.log self.new.log result }
    {
        if self.calls.is_named() {
            self.calls.fail();
            return Err(Failed);
        }
        if self.room - self.bytes.len() < piece.len() {
            self.calls.fail();
            return Err(Failed);
        }
        // The memory was taken in `new`, so this always goes well.
        if self.bytes.extend_from_slice(piece).is_err() {
            self.calls.fail();
            return Err(Failed);
        }
        self.calls.pass();
        Ok(piece.len())
    }
}
