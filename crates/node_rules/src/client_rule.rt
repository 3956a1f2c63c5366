//! "The client rule" of docs/PROTOCOL.md, over the lists of a node.
ghost use Rattle.std.specs.Prelude.{◌≡◌, Some};
ghost use Rattle.std.specs.List.{find, list_any};
ghost use Rattle.packet_header.specs.Parts.{part_size};
ghost use Rattle.rpc_base.specs.declared.owner.Owner.TheVariants.{Ask};
ghost use Rattle.rpc_laws.specs.Calls.{asked_packets, is_active, known_packets};
ghost use Rattle.rpc_laws.specs.ClientTable.{call_row, client_row, end_row, is_of_turn};
ghost use Rattle.rpc_laws.specs.ClientTable.{is_same_size, turn_row};
ghost use Rattle.rpc_laws.specs.Queues.{is_queued};
ghost use Rattle.rpc_laws.specs.Sessions.{is_client};

use crate::noted::is_connected;
use crate::server_rule::parts_of;
use node_tables::{has_queued, place_of_active, place_of_client};
use packet_header::{MessageHeader, count};
use rpc_base::{DropReason, Listed, Owner, PART_BYTES, Peer};
use rpc_laws::{Asking, Call, Calls, Client, ClientRow, EndRow, Progress, Queued};

/// How many packets the request of a call has.
pub fn asked_packets(what: &Asking) -> u64
    ensures { result ≡ asked_packets what.now }
{
    parts_of(what.ask.len())
}

// Every later packet of an answer has the size that its first one told.
fn is_same_size(told: Option<u32>, size: u32) -> bool
    ensures { result ≡ is_same_size told size }
{
    match told {
        None => true,
        Some(told) => told == size,
    }
}

// The bytes of part `index` of a message of `size` bytes, none past its end.
fn part_bytes(size: u32, index: u64) -> u64
    ensures { result ≡ part_size size index }
{
    let whole = u64::from(PART_BYTES);
    match index.checked_mul(whole) {
        None => 0,
        Some(before) => u64::from(size).saturating_sub(before).min(whole),
    }
}

// Before the last packet of the request a CR answers; from then on the parts of the answer.
fn is_of_turn(what: &Asking, answer: Option<u32>, head: &MessageHeader, body_len: usize) -> bool
    ensures { result ≡ is_of_turn (asked_packets what.now) what.now.req_type answer head.now
        body_len }
{
    let next = u64::from(head.number) + 1;
    let asked = asked_packets(what);
    if next < asked {
        return head.kind.is_cr();
    }
    head.kind.is_response()
        && head.req_type == what.req_type
        && is_same_size(answer, head.size)
        && body_len as u64 == part_bytes(head.size, next - asked)
}

// The row of a reply to an active call, whose packet of the reply's number waits in the queue or
// doesn't.
fn turn_row(
    waits: bool,
    what: &Asking,
    progress: &Progress,
    head: &MessageHeader,
    body_len: usize,
) -> ClientRow
    ensures { result ≡ turn_row waits (asked_packets what.now) what.now.req_type progress.now.got
        progress.now.posted progress.now.answer head.now body_len }
{
    let number = u64::from(head.number);
    if number < progress.got {
        return ClientRow::Drops(DropReason::Past);
    }
    if progress.got < number || progress.posted <= number {
        return ClientRow::Drops(DropReason::Ahead);
    }
    if !is_of_turn(what, progress.answer, head, body_len) {
        return ClientRow::Drops(DropReason::Mismatch);
    }
    if waits {
        return ClientRow::Drops(DropReason::Queued);
    }
    ClientRow::Takes
}

// Whether the packet that a reply answers is queued.
fn waits(queued: &Listed<Queued>, head: &MessageHeader) -> bool
    ensures { result ≡ list_any (is_queued (Ask head.now.session head.now.request)
        head.now.number) queued.now }
{
    let owner = Owner::Ask {
        session: head.session,
        request: head.request,
    };
    has_queued(queued, owner, u64::from(head.number))
}

fn call_row(
    queued: &Listed<Queued>,
    call: &Call,
    head: &MessageHeader,
    body_len: usize,
) -> ClientRow
    ensures { result ≡ call_row queued.now (Some call.now) head.now body_len }
{
    match &call.progress {
        None => ClientRow::Drops(DropReason::NoCall),
        Some(progress) => turn_row(waits(queued, head), &call.what, progress, head, body_len),
    }
}

fn calls_row(
    queued: &Listed<Queued>,
    calls: &Calls,
    head: &MessageHeader,
    body_len: usize,
) -> ClientRow
    ensures { result ≡ call_row queued.now (find (is_active head.now.request) calls.now) head.now
        body_len }
{
    let Some(place) = place_of_active(calls, head.request) else {
        return ClientRow::Drops(DropReason::NoCall);
    };
    call_row(queued, calls.at(place), head, body_len)
}

fn session_row(
    queued: &Listed<Queued>,
    client: &Client,
    peer: Peer,
    head: &MessageHeader,
    body_len: usize,
) -> ClientRow
    ensures { result ≡ client_row queued.now (Some client.now) peer head.now body_len }
{
    if !is_connected(client.state) {
        return ClientRow::Drops(DropReason::NoSession);
    }
    if client.way.peer.0 != peer.0 {
        return ClientRow::Drops(DropReason::WrongPeer);
    }
    calls_row(queued, &client.calls, head, body_len)
}

/// What the client rule says of a CR or Response of this peer, whose body has so many bytes.
pub fn client_row(
    queued: &Listed<Queued>,
    clients: &Listed<Client>,
    peer: Peer,
    head: &MessageHeader,
    body_len: usize,
) -> ClientRow
    ensures { result ≡ client_row queued.now (find (is_client head.now.session) clients.now) peer
        head.now body_len }
{
    let Some(place) = place_of_client(clients, head.session) else {
        return ClientRow::Drops(DropReason::NoSession);
    };
    session_row(queued, clients.at(place), peer, head, body_len)
}

/// How many packets a call is known to have, whose request has so many and whose answer has this
/// size, once that is known.
pub fn known_packets(asked: u64, answer: Option<u32>) -> u128
    ensures { result ≡ known_packets asked answer }
{
    match answer {
        None => u128::from(asked),
        Some(size) => u128::from(asked) + u128::from(count(size)) - 1,
    }
}

/// How a call of so much room stands, once a reply to it was taken and `got` of them are.
/// `is_first` tells whether its answer wasn't known before.
pub fn end_row(is_first: bool, what: &Asking, got: u128, answer: Option<u32>) -> EndRow
    ensures { result ≡ end_row is_first (asked_packets what.now) what.now.room got answer }
{
    let Some(size) = answer else {
        return EndRow::GoesOn;
    };
    if is_first && what.room < size {
        return EndRow::EndsTooSmall(size);
    }
    if got == known_packets(asked_packets(what), Some(size)) {
        return EndRow::EndsOk;
    }
    EndRow::GoesOn
}
