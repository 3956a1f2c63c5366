//! Datagrams that come over a link.
ghost use Rattle.std.specs.Prelude.{IfOk};
ghost use Rattle.memory_count.specs.Faults.{HasCause};
ghost use Rattle.rpc_outside.specs.Linking.{AreCarried};

use memory_count::{Memory, NoMemory};
use rpc_base::{HEAD_BYTES, Octets, Peer};

// A request to connect, of this session with one credit.
fn request(session: u8) -> [u8; HEAD_BYTES] {
    [
        0xe2, 4, 0, session, 0xff, 0xff, 0, 1, 0, 0, 0, 0, 1, 0, 0, 0, 0, 0, 0, 0,
    ]
}

/// So many sessions of peer 1 request to connect.
pub fn requests(memory: &mut Memory, count: u8) -> Result<Vec<(Peer, Octets)>, NoMemory>
    ensures carried { IfOk result (λ arrivals. AreCarried arrivals.items) }
    ensures cause { HasCause memory.old memory.new result }
{
    let mut arrivals = Vec::new(memory.alloc());
    'sessions: for session in 0..count {
        let copied = Octets::copy(memory.alloc(), &request(session));
        let bytes = memory.of(copied)?;
        memory.push(&mut arrivals, (Peer(1), bytes))?;
    }
    Ok(arrivals)
}
