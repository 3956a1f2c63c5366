//! Step 3 of a poll, for replies: a CR or Response in front of the receive ring is handled.
ghost use Rattle.node_steps.specs.Handed.{timed_of};
ghost use Rattle.node_steps.specs.Leaves.{LeavesServing};
ghost use Rattle.session_store.specs.Handing.{HandsBackIf};
ghost use Rattle.std.specs.Prelude.{◌≡◌, ◌≢◌, ◌+◌, [], None, Some, IfSome, drop, length};
ghost use Rattle.client_core.specs.Shown.{done_event, end_bytes};
ghost use Rattle.node_steps.specs.Replies.{Drops, HearsReply};
ghost use Rattle.node_steps.specs.Notes.{Makes};
ghost use Rattle.packet_header.specs.Header.{MessageInRange, MessageLength};
ghost use Rattle.packet_header.specs.Reading.{body_of};
ghost use Rattle.rpc_laws.specs.Front.{front_body, front_header};

use client_core::{Done, Outcome, Reply};
use endpoint_node::Node;
use packet_header::{MessageHeader, message_header};
use rpc_base::{DropReason, Event, HEAD_BYTES, Owner, Who};
use rpc_outside::Recorder;

/// What follows the header of a datagram.
pub(crate) fn body(bytes: &[u8]) -> &[u8]
    ensures { result.now ≡ body_of bytes.now }
{
    bytes.get(HEAD_BYTES..).unwrap_or_default()
}

fn end_event(done: &Done) -> Event
    ensures { result ≡ done_event done.now }
{
    match &done.outcome {
        Outcome::Ok => Event::DoneOk { call: done.call },
        Outcome::TooSmall { size } => Event::DoneTooSmall {
            call: done.call,
            size: *size,
        },
        Outcome::PeerLost => Event::DonePeerLost { call: done.call },
    }
}

fn answer_of(done: &Done) -> &[u8]
    ensures { result.now ≡ end_bytes done.now.outcome done.now.resp }
{
    match &done.outcome {
        Outcome::Ok => done.resp.bytes(),
        Outcome::TooSmall { .. } => &[],
        Outcome::PeerLost => &[],
    }
}

/// The front of the receive ring is dropped for this reason.
pub(crate) fn drop_front<R: Recorder>(node: &mut Node, reason: DropReason, rec: &mut R)
    ensures drops { Makes R.log (Drops reason) (timed_of node.old) (timed_of node.new)
        rec.old rec.new }
    ensures ring { node.new.lists.ring ≡ drop 1 node.old.lists.ring }
    ensures clients { node.new.lists.clients ≡ node.old.lists.clients }
    ensures rest { LeavesServing node.old node.new }
{
    let event = Event::Dropped { reason };
    rec.note(Who::Node(node.me), event, &[], &[]);
    node.counts.dropped = node.counts.dropped.saturating_add(1);
    node.rx.drop_front();
}

/// Handles the CR or Response in front of the receive ring, whose header is given, where its
/// bytes lie. What is given out is the call that it ended, with the call's buffers.
pub(crate) fn hear_reply<R: Recorder>(
    node: &mut Node,
    head: &MessageHeader,
    rec: &mut R,
) -> Option<Done>
    requires in_range { MessageInRange head.now }
    requires front { front_header node.old.lists.ring ≡ Some head.now }
    ensures hears { Makes R.log (HearsReply head.now result) (timed_of node.old)
        (timed_of node.new) rec.old rec.new }
    ensures ring { node.new.lists.ring ≡ drop 1 node.old.lists.ring }
    ensures jobs { node.new.lists.jobs ≡ node.old.lists.jobs }
    ensures servers { node.new.lists.servers ≡ node.old.lists.servers }
    ensures handed { HandsBackIf head.now.session result node.old.handed node.new.handed }
{
    let Some(front) = node.rx.front() else {
        unreachable!()
    };
    let i = usize::from(head.session.0);
    if i >= node.store.clients() {
        drop_front(node, DropReason::NoSession, rec);
        return None;
    }
    let owner = Owner::Ask {
        session: head.session,
        request: head.request,
    };
    let took = Event::Took {
        owner,
        number: head.number,
    };
    let reply = node
        .store
        .on_reply(i, front.peer(), head, body(front.bytes()), node.clock);
    match reply {
        Reply::Dropped(reason) => {
            drop_front(node, reason, rec);
            None
        }
        Reply::Took => {
            rec.note(Who::Node(node.me), took, &[], &[]);
            node.rx.drop_front();
            None
        }
        Reply::Ended(done) => {
            rec.note(Who::Node(node.me), took, &[], &[]);
            rec.note(Who::Node(node.me), end_event(&done), answer_of(&done), &[]);
            node.rx.drop_front();
            Some(done)
        }
    }
}

/// The header of the packet in front of the receive ring. None comes exactly where the ring is
/// empty.
pub(crate) fn front_head(node: &Node) -> Option<MessageHeader>
    ensures there { node.now.lists.ring ≢ [] → result ≢ None }
    ensures value { result ≡ front_header node.now.lists.ring }
    ensures in_range { IfSome result (λ h. MessageInRange h) }
    ensures long { IfSome result (λ h. MessageLength h.kind h.size h.number
        (HEAD_BYTES + length (front_body node.now.lists.ring))) }
{
    let Some(front) = node.rx.front() else {
        return None;
    };
    Some(message_header(front.bytes()))
}
