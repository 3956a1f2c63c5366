//! A datagram is copied in one piece.
ghost use Rattle.std.specs.Prelude.{◌≡◌, ◌++◌, IfOk};
ghost use Rattle.memory_count.specs.Faults.{HasCause};

use memory_count::{Memory, NoMemory};
use rpc_base::Octets;

/// A copy of head and body, one behind the other, which takes memory once. `NoMemory` comes only
/// where there is none for it.
pub fn joined(memory: &mut Memory, head: &[u8], body: &[u8]) -> Result<Octets, NoMemory>
    ensures joined { IfOk result (λ bytes. bytes ≡ head.now ++ body.now) }
    ensures cause { HasCause memory.old memory.new result }
{
    let mut bytes = memory.list(head.len().saturating_add(body.len()))?;
    memory.of(bytes.extend_from_slice(head))?;
    memory.of(bytes.extend_from_slice(body))?;
    Ok(Octets::from(bytes))
}
