//! Where bytes come from.
ghost use Rattle.std.specs.Prelude.{◌≡◌, ◌<◌, ◌≤◌, length, take, IfOk, OnErr};
ghost use Rattle.std.specs.Io.KnownBytes.{Keeps, Consumes, IsAtEnd};
ghost use Rattle.memory_count.specs.Faults.{HasCause};
ghost use Rattle.rpc_outside.specs.Reading.{Unread};

use crate::failed::Failed;

/// Bytes to be read once, from the front.
pub trait Source {
    // What is left, and how many calls failed.
    ghost input: { Self → Unread };

    /// Moves bytes from the front of what is left to the front of `out`, which isn't empty, and
    /// tells how many. 0 says that nothing is left. `Failed` leaves what is left as it was, and
    /// comes only where the source counts one more fault.
    fn read(&mut self, out: &mut [u8]) -> Result<usize, Failed>
        requires { 0 < length out.old }
        ensures within { IfOk result (λ n. n ≤ length out.new) }
        ensures bytes { IfOk result (λ n. Consumes (input self.old).left (input self.new).left
            (take n out.new)) }
        ensures end { IfOk result (λ n. n ≡ 0 → IsAtEnd (input self.old).left) }
        ensures kept { OnErr result (Keeps (input self.old).left (input self.new).left) }
        ensures cause { HasCause (input self.old).faults (input self.new).faults result };
}
