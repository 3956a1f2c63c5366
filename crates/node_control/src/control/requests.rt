//! What a connect or disconnect request does at a node, and what the node has of its server
//! sessions.
ghost use Rattle.node_steps.specs.Wants.{FitsServer};
ghost use Rattle.node_steps.specs.Steps.{StepsControl};
ghost use Rattle.node_steps.specs.Changes.{◌⟶◌};
ghost use Rattle.std.specs.Prelude.{◌≡◌, ◌<◌, ◌≤◌, length, option_map, slice_get, true, IfOk, Bool};
ghost use Rattle.std.specs.Prelude.{IfSome, None, OnErr, OnOk, Some, is_some};
ghost use Rattle.std.specs.List.{find};
ghost use Rattle.node_steps.specs.ControlRows.{Acts, Controls};
ghost use Rattle.node_steps.specs.Handed.{timed_of};
ghost use Rattle.node_steps.specs.Leaves.{LeavesPackets};
ghost use Rattle.node_steps.specs.Notes.{Makes};
ghost use Rattle.memory_count.specs.Faults.{HasCause};
ghost use Rattle.packet_header.specs.Header.{ControlInRange};
ghost use Rattle.rpc_base.specs.declared.event.Event.TheVariants.{Accepted};
ghost use Rattle.rpc_laws.specs.declared.rows.ControlRow.TheVariants.{Accepts, Declines, Ends};
ghost use Rattle.rpc_laws.specs.declared.rows.ControlRow.TheVariants.{Starves};
ghost use Rattle.rpc_laws.specs.ControlTable.{control_reply, control_row, is_end_of, named_end};
ghost use Rattle.rpc_laws.specs.Groups.{server_refusal};
ghost use Rattle.rpc_laws.specs.Steps.{NotesNext};
ghost use Rattle.session_mgmt.specs.Control.{other_end, starved_if};

use crate::control::removal::end_session;
use endpoint_node::Node;
use memory_count::{Memory, NoMemory};
use packet_header::{ControlHeader, Life};
use rpc_base::{Event, MOST_CREDITS, Peer, SESSION_NUMBERS, SessionNo, Who};
use rpc_laws::ControlRow;
use rpc_outside::Recorder;
use session_mgmt::OtherEnd;

// The first server session that is the other end of a client session that a peer has in this
// life.
pub(crate) fn other_end(node: &Node, peer: Peer, client: SessionNo, life: Life) -> Option<OtherEnd>
    ensures { result ≡ option_map other_end
        (find (is_end_of peer client life) node.now.lists.servers) }
{
    let Some(i) = node.store.place_of_end(peer, client, life) else {
        return None;
    };
    let end = node.store.end_of_server(i);
    Some(OtherEnd {
        number: end.session,
        credits: end.credits,
    })
}

// Where the server session of a number stands, if that is the other end of a client session
// that a peer has in this life.
fn place_of(
    node: &Node,
    peer: Peer,
    client: SessionNo,
    life: Life,
    server: SessionNo,
) -> Option<usize>
    ensures found { IfSome result (λ i. (i < length node.now.lists.servers)
        × (named_end peer client life (Some server) node.now.lists.servers
        ≡ slice_get node.now.lists.servers i)) }
    ensures missing { result ≡ None →
        named_end peer client life (Some server) node.now.lists.servers ≡ None }
{
    let i = node.store.place_of_server(server)?;
    let end = node.store.end_of_server(i);
    if end.peer.0 != peer.0 {
        return None;
    }
    if end.client.0 != client.0 {
        return None;
    }
    if end.life.0 != life.0 {
        return None;
    }
    Some(i)
}

// Where the server session stands that a packet names, if that is the other end of the peer's.
pub(crate) fn place_of_named(node: &Node, peer: Peer, head: &ControlHeader) -> Option<usize>
    ensures found { IfSome result (λ i. (i < length node.now.lists.servers)
        × (named_end peer head.now.client head.now.from_life head.now.server
        node.now.lists.servers ≡ slice_get node.now.lists.servers i)) }
    ensures missing { result ≡ None → named_end peer head.now.client head.now.from_life
        head.now.server node.now.lists.servers ≡ None }
{
    match head.server {
        Some(server) => place_of(node, peer, head.client, head.from_life, server),
        None => None,
    }
}

// There is no room for the session that a peer asks for.
pub(crate) fn decline<R: Recorder>(node: &Node, peer: Peer, head: &ControlHeader, rec: &mut R)
    ensures { Makes R.log (Acts Declines peer head.now) (timed_of node.now)
        (timed_of node.now) rec.old rec.new }
{
    let (client, credits) = (head.client, head.credits);
    let event = Event::Declined {
        peer,
        client,
        credits,
    };
    rec.note(Who::Node(node.me), event, &[], &[]);
}

// There is no memory for the session that a peer asks for.
fn starve<R: Recorder>(node: &Node, peer: Peer, head: &ControlHeader, rec: &mut R)
    ensures { Makes R.log (Acts Starves peer head.now) (timed_of node.now)
        (timed_of node.now) rec.old rec.new }
{
    let (client, credits) = (head.client, head.credits);
    let event = Event::Starved {
        peer,
        client,
        credits,
    };
    rec.note(Who::Node(node.me), event, &[], &[]);
}

// Makes the server end of a peer's session, with the next number, as its connect request asks.
// `NoMemory` comes where there is no memory for it, and then nothing changed.
fn add_accepted<R: Recorder>(
    node: &mut Node,
    memory: &mut Memory,
    peer: Peer,
    life: Life,
    client: SessionNo,
    credits: u16,
    rec: &mut R,
) -> Result<SessionNo, NoMemory>
    requires fits { FitsServer credits node.old }
    requires life { 1 ≤ life }
    requires client { client < SESSION_NUMBERS }
    ensures number { IfOk result (λ t. t ≡ node.old.lists.server_numbers) }
    ensures makes { OnOk result (Makes R.log (NotesNext (λ s. Some (Accepted
        s.server_numbers peer client credits life))) (timed_of node.old) (timed_of node.new)
        rec.old rec.new) }
    ensures rest { LeavesPackets node.old node.new }
    ensures unchanged { OnErr result ((node.new ≡ node.old) × (rec.new ≡ rec.old)) }
    ensures cause { HasCause memory.old memory.new result }
{
    let session = SessionNo(node.server_numbers as u16);
    node.store
        .pair_server(memory, session, client, peer, life, credits)?;
    node.server_numbers += 1;
    let event = Event::Accepted {
        session,
        peer,
        client,
        credits,
        life: life.0,
    };
    rec.note(Who::Node(node.me), event, &[], &[]);
    Ok(session)
}

// The session that a connect request asks for is made, for which there are a number and room.
// The result is what was done: `Starves` where there is no memory for it.
pub(crate) fn accept_session<R: Recorder>(
    node: &mut Node,
    memory: &mut Memory,
    peer: Peer,
    head: &ControlHeader,
    rec: &mut R,
) -> ControlRow
    requires row { (lacks : Bool) → control_row lacks peer head.now node.old.lists
        ≡ starved_if lacks (Accepts node.old.lists.server_numbers) }
    requires fits { server_refusal head.now.credits node.old.lists ≡ None }
    requires in_range { ControlInRange head.now }
    requires some { 1 ≤ head.now.credits }
    requires most { head.now.credits ≤ MOST_CREDITS }
    ensures { StepsControl R.log
        (Controls peer head.now (control_reply node.old.lists.life head.now result)
        (memory.old ⟶ memory.new)) (node.old ⟶ node.new) (rec.old ⟶ rec.new) }
{
    match add_accepted(
        node,
        memory,
        peer,
        head.from_life,
        head.client,
        head.credits,
        rec,
    ) {
        Ok(server) => ControlRow::Accepts { server },
        Err(_) => {
            starve(node, peer, head, rec);
            ControlRow::Starves
        }
    }
}

// The session that a disconnect request names ends, which is there.
pub(crate) fn end_named<R: Recorder>(node: &mut Node, peer: Peer, head: &ControlHeader, rec: &mut R)
    requires named { is_some (named_end peer head.now.client head.now.from_life head.now.server
        node.old.lists.servers) ≡ true }
    ensures { StepsControl R.log (Acts Ends peer head.now) (node.old ⟶ node.new)
        (rec.old ⟶ rec.new) }
{
    let Some(i) = place_of_named(node, peer, head) else {
        unreachable!()
    };
    end_session(node, i, rec);
}
