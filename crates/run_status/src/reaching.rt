//! What the link of a run is told before its first turn.
ghost use Rattle.std.specs.Prelude.{IfOk};
ghost use Rattle.memory_count.specs.Faults.{HasCause};
ghost use Rattle.run_status.specs.Starting.{KeepsTraffic, Reaches};

use rpc_base::Peer;
use rpc_outside::{Failed, Link};

/// The link takes its own address, and learns by which number it knows the other one. `Failed`
/// comes exactly where a fault of the link came.
pub fn reach<L: Link>(own: &str, other: &str, link: &mut L) -> Result<Peer, Failed>
    ensures reaches { IfOk result (Reaches L.Link own.now other.now link.new) }
    ensures traffic { KeepsTraffic L.Link link.old link.new }
    ensures cause { HasCause (L.faults link.old) (L.faults link.new) result }
{
    link.bind(own)?;
    link.peer(other)
}
