//! Control packets that are handed to the link, and which facts tell it.
ghost use Rattle.std.specs.Prelude.{◌≡◌, ◌≤◌, ◌↔◌, ◌∷◌, [], List, IfOk, IfSome, IsNone, IsTrue};
ghost use Rattle.memory_count.specs.Faults.{HasCause};
ghost use Rattle.std.specs.Prelude.{length, take};
ghost use Rattle.packet_header.specs.declared.packet.Packet.TheVariants.{Control as ControlPacket};
ghost use Rattle.rpc_base.specs.declared.fact.Fact.{Fact};
ghost use Rattle.rpc_laws.specs.ControlSteps.{Speaks, SpeaksIf};
ghost use Rattle.rule_facts.specs.Fronts.{Starts};
ghost use Rattle.rule_facts.specs.Heads.{IsSpelled};
ghost use Rattle.rule_facts.specs.Speaking.{Answer, AnswerNone, RowAnswer, RowAnswerNone};
ghost use Rattle.rule_facts.specs.Speaking.{SpeakNone, says_handed, tells_handed};

use crate::control_facts::control_noted;
use crate::heads::is_spelled;
use crate::says::is_node;
use memory_count::{Memory, NoMemory};
use node_rules::{control_reply, control_row};
use packet_header::{ControlHeader, Packet};
use rpc_base::{Event, Fact, NodeId, Owner, Peer};
use rpc_laws::{ControlRow, Lists};

// Whether an event tells that a control packet was handed to the link for this peer.
fn tells_handed(event: &Event, peer: Peer) -> bool
    ensures { result ≡ tells_handed peer event.now }
{
    match event {
        Event::Sent {
            peer: told,
            owner,
            number,
        } => told.0 == peer.0 && owner.is_same(Owner::Control) && *number == 0,
        Event::Unsent { peer: told } => told.0 == peer.0,
        _ => false,
    }
}

// Whether a fact of the node tells it.
fn says_handed(fact: &Fact, me: NodeId, peer: Peer) -> bool
    ensures { result ≡ says_handed me peer fact.now }
{
    is_node(fact.who, me) && tells_handed(&fact.event, peer) && fact.second.is_empty()
}

// Whether bytes are the header of this control packet.
fn is_control_head(head: &ControlHeader, told: &[u8]) -> bool
    ensures { IsTrue result ↔ IsSpelled (ControlPacket head.now) told.now }
{
    is_spelled(&Packet::Control(*head), told)
}

// Whether a fact hands this control packet to the link for a peer.
fn hands(fact: &Fact, me: NodeId, peer: Peer, head: &ControlHeader) -> bool
    ensures { IsTrue result ↔ Speaks me peer head.now (fact.now ∷ []) }
{
    if !says_handed(fact, me, peer) {
        return false;
    }
    is_control_head(head, fact.first.bytes())
}

/// How many of the facts hand this control packet to the link for a peer: one, or `None` exactly
/// where the first fact doesn't.
pub fn spoken(me: NodeId, peer: Peer, head: &ControlHeader, facts: &[Fact]) -> Option<usize>
    ensures some { IfSome result (λ n. Speaks me peer head.now (take n facts.now)) }
    ensures only { IsNone result → SpeakNone me peer head.now facts.now }
    ensures within { IfSome result (λ n. n ≤ length facts.now) }
{
    if facts.is_empty() {
        return None;
    }
    if !hands(&facts[0], me, peer, head) {
        return None;
    }
    Some(1)
}

// How many of the facts answer a packet, where there is an answer.
fn said(me: NodeId, peer: Peer, reply: &Option<ControlHeader>, facts: &[Fact]) -> Option<usize>
    ensures some { IfSome result (λ n. SpeaksIf me peer reply.now (take n facts.now)) }
    ensures only { IsNone result → (x : List Fact) → Starts x facts.now
        → SpeaksIf me peer reply.now x → ⊥ }
    ensures within { IfSome result (λ n. n ≤ length facts.now) }
{
    match reply {
        None => Some(0),
        Some(head) => spoken(me, peer, head, facts),
    }
}

// How many of the facts are those of a row of a control packet, with its answer.
fn answered_as(
    memory: &mut Memory,
    lists: &Lists,
    peer: Peer,
    head: &ControlHeader,
    row: &ControlRow,
    facts: &[Fact],
) -> Result<Option<usize>, NoMemory>
    ensures some { IfOk result (λ o. IfSome o (λ n.
        RowAnswer lists.now peer head.now row.now (take n facts.now))) }
    ensures only { IfOk result (λ o. IsNone o
        → RowAnswerNone lists.now peer head.now row.now facts.now) }
    ensures cause { HasCause memory.old memory.new result }
{
    let Some(count) = control_noted(memory, lists, peer, head, *row, facts)? else {
        return Ok(None);
    };
    let reply = control_reply(lists.life, head, *row);
    let Some(more) = said(lists.me, peer, &reply, &facts[count..]) else {
        return Ok(None);
    };
    Ok(Some(count + more))
}

/// How many of the facts answer a control packet of this peer, once no session is outdated by it:
/// those of its row, and what is handed to the link. Whether memory for a session was wanting is
/// told by the facts. `None` comes exactly where no front of them does so.
pub fn answered(
    memory: &mut Memory,
    lists: &Lists,
    peer: Peer,
    head: &ControlHeader,
    facts: &[Fact],
) -> Result<Option<usize>, NoMemory>
    ensures some { IfOk result (λ o. IfSome o (λ n.
        Answer lists.now peer head.now (take n facts.now))) }
    ensures only { IfOk result (λ o. IsNone o → AnswerNone lists.now peer head.now facts.now) }
    ensures cause { HasCause memory.old memory.new result }
{
    let row = control_row(lists, false, peer, head);
    if let Some(count) = answered_as(memory, lists, peer, head, &row, facts)? {
        return Ok(Some(count));
    }
    let starved = control_row(lists, true, peer, head);
    let count = answered_as(memory, lists, peer, head, &starved, facts)?;
    Ok(count)
}
