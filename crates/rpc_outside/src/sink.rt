//! Where bytes go.
ghost use Rattle.std.specs.Prelude.{◌<◌, ◌≤◌, length, take, IfOk, OnErr};
ghost use Rattle.std.specs.Io.KnownBytes.{Keeps, Appends};
ghost use Rattle.memory_count.specs.Faults.{HasCause};
ghost use Rattle.rpc_outside.specs.Writing.{Written};

use crate::failed::Failed;

/// Takes bytes and keeps their order.
pub trait Sink {
    // What was written, and how many calls failed.
    ghost page: { Self → Written };

    /// Writes the front of the piece and tells how many bytes that is: at least one, unless the
    /// piece is empty. `Failed` writes nothing, and comes only where the sink counts one more
    /// fault.
    fn write(&mut self, piece: &[u8]) -> Result<usize, Failed>
        ensures within { IfOk result (λ n. n ≤ length piece.now) }
        ensures some { IfOk result (λ n. 0 < length piece.now → 0 < n) }
        ensures bytes { IfOk result (λ n. Appends (page self.old).written (page self.new).written
            (take n piece.now)) }
        ensures kept { OnErr result (Keeps (page self.old).written (page self.new).written) }
        ensures cause { HasCause (page self.old).faults (page self.new).faults result };
}
