//! Which facts the packet at the front of the ring notes.
ghost use Rattle.std.specs.Prelude.{◌≡◌, ◌==◌, IfOk};
ghost use Rattle.memory_count.specs.Faults.{HasCause};
ghost use Rattle.rule_facts.specs.Handling.{SomeFronts, handled_facts};

use crate::client_facts::replied;
use crate::front_facts::dropped;
use crate::server_facts::asked;
use memory_count::{Memory, NoMemory};
use packet_header::{Kind, MessageHeader};
use rpc_base::{DropReason, Fact, Peer};
use rpc_laws::Lists;

// Whether a packet is for the life of the node.
fn is_for(lists: &Lists, head: &MessageHeader) -> bool
    ensures { result ≡ (head.now.to_life == lists.now.life) }
{
    head.to_life.0 == lists.life.0
}

/// How many of the facts handle a packet of this peer with this body, at a node of the plain
/// service. Whether memory was wanting, and what the handler answered, is told by the facts. `None`
/// comes exactly where no front of them does so.
pub fn handled(
    memory: &mut Memory,
    lists: &Lists,
    peer: Peer,
    head: &MessageHeader,
    body: &[u8],
    facts: &[Fact],
) -> Result<Option<usize>, NoMemory>
    ensures fronts { IfOk result (SomeFronts (handled_facts lists.now peer head.now body.now)
        facts.now) }
    ensures cause { HasCause memory.old memory.new result }
{
    if !is_for(lists, head) {
        return Ok(dropped(lists.me, DropReason::StaleLife, facts));
    }
    match head.kind {
        Kind::Request => asked(memory, lists, peer, head, body, facts),
        Kind::Rfr => asked(memory, lists, peer, head, body, facts),
        Kind::Cr => Ok(replied(lists, peer, head, body, facts)),
        Kind::Response => Ok(replied(lists, peer, head, body, facts)),
    }
}
