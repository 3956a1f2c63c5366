//! A source that keeps what was read from it, for one who has to show a part of it again.
ghost use Rattle.std.specs.Prelude.{◌≡◌, ◌<◌, ◌≤◌, ◌++◌, [], None, Some, length, option_map, take};
ghost use Rattle.std.specs.Prelude.{IfOk, IfSome, OnErr};
ghost use Rattle.std.specs.Io.KnownBytes.{Consumes, IsAtEnd, Keeps};
ghost use Rattle.memory_count.specs.Faults.{HasCause};

use crate::failed::Failed;
use crate::source::Source;
use std::alloc::Global;

/// A source over another. It is read as that one is; what was read stays at hand.
#[derive(Debug, Drop)]
pub struct Kept<S> {
    source: S,
    /// Nothing once there was no memory for it.
    bytes: Option<Vec<u8>>,
}

impl<S> Kept<S> {
    /// Nothing was read yet. Takes no memory.
    pub fn new(alloc: Global, source: S) -> Kept<S>
        ensures source { result.source ≡ source }
        ensures nothing { option_map (λ v. v.items) result.bytes ≡ Some [] }
    {
        Kept {
            source,
            bytes: Some(Vec::new(alloc)),
        }
    }

    /// All bytes that were read, or nothing where there was no memory to keep them.
    pub fn bytes(&self) -> Option<&[u8]>
        ensures { option_map (λ b. b.now) result ≡ option_map (λ v. v.items) self.now.bytes }
    {
        let bytes = self.bytes.as_ref()?;
        Some(bytes.as_slice())
    }

    fn keep(&mut self, piece: &[u8])
        ensures source { self.new.source ≡ self.old.source }
        ensures lost { self.old.bytes ≡ None → self.new.bytes ≡ None }
        ensures kept { IfSome self.old.bytes (λ old. IfSome self.new.bytes
            (λ new. new.items ≡ old.items ++ piece.now)) }
    {
        let kept = match &mut self.bytes {
            Some(bytes) => bytes.extend_from_slice(piece).is_ok(),
            None => true,
        };
        if !kept {
            self.bytes = None;
        }
    }
}

impl<S: Source> Source for Kept<S> {
    ghost input = { λ k. S.input k.source };

    /// Reads as the other source does, and keeps what was read.
    fn read(&mut self, out: &mut [u8]) -> Result<usize, Failed>
        requires { 0 < length out.old }
        ensures within { IfOk result (λ n. n ≤ length out.new) }
        ensures bytes { IfOk result (λ n. Consumes (S.input self.old.source).left (S.input
            self.new.source).left
            (take n out.new)) }
        ensures end { IfOk result (λ n. n ≡ 0 → IsAtEnd (S.input self.old.source).left) }
        ensures kept { OnErr result (Keeps (S.input self.old.source).left (S.input
            self.new.source).left) }
        ensures cause { HasCause (S.input self.old.source).faults (S.input self.new.source).faults
            result }
        ensures lost { self.old.bytes ≡ None → self.new.bytes ≡ None }
        ensures at_hand { IfOk result (λ n. IfSome self.old.bytes
            (λ old. IfSome self.new.bytes (λ new. new.items ≡ old.items ++ take n out.new))) }
        ensures same { OnErr result (self.new.bytes ≡ self.old.bytes) }
    {
        let count = self.source.read(out)?;
        self.keep(&out[..count]);
        Ok(count)
    }
}
