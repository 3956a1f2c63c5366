//! Whether a fact says that a queued packet was sent: to whom, with which header and body.
ghost use Rattle.std.specs.Prelude.{◌≡◌, ◌&&◌, ◌↔◌, IsTrue, Some, ◌+◌, ◌≤◌, drop, take};
ghost use Rattle.std.specs.List.{find};
ghost use Rattle.packet_header.specs.Parts.{packet_count, part};
ghost use Rattle.rpc_laws.specs.Calls.{is_active};
ghost use Rattle.rpc_laws.specs.Packets.{ask_packet, call_packet, client_packet, outgoing};
ghost use Rattle.rpc_laws.specs.Packets.{reply_packet, request_packet, server_packet};
ghost use Rattle.rpc_laws.specs.Requests.{is_request, is_server};
ghost use Rattle.rpc_laws.specs.Sessions.{is_client};
ghost use Rattle.rule_facts.specs.Tells.{is_node};
ghost use Rattle.poll_steps.specs.Sending.{IsSentAs, IsSentIf, answer_part, asked_answer};
ghost use Rattle.poll_steps.specs.Sending.{asked_part, credit_return, says_sent, tells_sent};

use node_tables::{place_of_active, place_of_client, place_of_request, place_of_server};
use packet_header::{Kind, MessageHeader, Packet, count};
use rpc_base::{
    Event, Fact, Listed, MOST_MESSAGE_BYTES, NodeId, Octets, Owner, PART_BYTES, Peer, RequestNo,
    SessionNo, Who,
};
use rpc_laws::{Asking, Call, Client, Lists, Queued, Served, Server, Way};
use rule_facts::is_spelled;

fn is_node(who: Who, me: NodeId) -> bool
    ensures { result ≡ is_node me who }
{
    match who {
        Who::Node(node) => node.0 == me.0,
        Who::Net => false,
    }
}

fn tells_sent(event: &Event, peer: Peer, owner: Owner, number: u16) -> bool
    ensures { result ≡ tells_sent peer owner number event.now }
{
    let Event::Sent {
        peer: x0,
        owner: x1,
        number: x2,
    } = event
    else {
        return false;
    };
    x0.0 == peer.0 && x1.is_same(owner) && *x2 == number
}

// Whether a fact says that this packet of the queue was sent to a peer with this body.
fn says_sent(fact: &Fact, me: NodeId, entry: &Queued, peer: Peer, body: &[u8]) -> bool
    ensures { result ≡ says_sent me entry.now peer body.now fact.now }
{
    is_node(fact.who, me)
        && tells_sent(&fact.event, peer, entry.owner, entry.number)
        && fact.second.bytes() == body
}

// Whether it says so of a packet with this body, and its bytes spell the packet.
fn is_sent_as(
    fact: &Fact,
    me: NodeId,
    entry: &Queued,
    peer: Peer,
    packet: &Packet,
    body: &[u8],
) -> bool
    ensures { IsTrue result ↔ IsSentAs me entry.now
        (record { peer = peer; packet = packet.now; body = body.now }) fact.now }
{
    if !says_sent(fact, me, entry, peer, body) {
        return false;
    }
    is_spelled(packet, fact.first.bytes())
}

// How many packets carry a message of so many bytes, which may be more than a message has.
fn parts_of(len: usize) -> u64
    ensures { result ≡ packet_count len }
{
    (len as u64).div_ceil(u64::from(PART_BYTES)).max(1)
}

// The bytes behind the first ones, none where there are no more.
fn behind(bytes: &[u8], start: usize) -> &[u8]
    ensures { result.now ≡ drop start bytes.now }
{
    if bytes.len() < start {
        return &bytes[bytes.len()..];
    }
    &bytes[start..]
}

// The first bytes, all of them where there are no more.
fn front(bytes: &[u8], count: usize) -> &[u8]
    ensures { result.now ≡ take count bytes.now }
{
    if bytes.len() < count {
        return bytes;
    }
    &bytes[..count]
}

// A part of a message.
fn part(bytes: &[u8], index: u32) -> &[u8]
    ensures { result.now ≡ part bytes.now index }
{
    let whole = PART_BYTES as usize;
    front(behind(bytes, whole * index as usize), whole)
}

// Whether it says that a part of a call's bytes was sent.
fn is_asked_part(
    fact: &Fact,
    me: NodeId,
    entry: &Queued,
    way: &Way,
    what: &Asking,
    request: RequestNo,
) -> bool
    ensures { IsTrue result ↔ IsSentAs me entry.now
        (asked_part way.now what.now request entry.now.number) fact.now }
{
    let len = what.ask.len();
    if len > MOST_MESSAGE_BYTES as usize {
        return false;
    }
    let packet = Packet::Message(MessageHeader {
        kind: Kind::Request,
        req_type: what.req_type,
        size: len as u32,
        session: way.other,
        number: entry.number,
        request,
        to_life: way.life,
    });
    let body = part(what.ask.bytes(), u32::from(entry.number));
    is_sent_as(fact, me, entry, way.peer, &packet, body)
}

// A request for a part of the answer.
fn is_asked_answer(fact: &Fact, me: NodeId, entry: &Queued, way: &Way, request: RequestNo) -> bool
    ensures { IsTrue result ↔ IsSentAs me entry.now
        (asked_answer way.now request entry.now.number) fact.now }
{
    let packet = Packet::Message(MessageHeader {
        kind: Kind::Rfr,
        req_type: 0,
        size: 0,
        session: way.other,
        number: entry.number,
        request,
        to_life: way.life,
    });
    is_sent_as(fact, me, entry, way.peer, &packet, &[])
}

// A packet of a call's client.
fn is_client_packet(
    fact: &Fact,
    me: NodeId,
    entry: &Queued,
    way: &Way,
    what: &Asking,
    request: RequestNo,
) -> bool
    ensures { IsTrue result ↔ IsSentAs me entry.now
        (client_packet way.now what.now request entry.now.number) fact.now }
{
    if parts_of(what.ask.len()) <= u64::from(entry.number) {
        return is_asked_answer(fact, me, entry, way, request);
    }
    is_asked_part(fact, me, entry, way, what, request)
}

// A credit return.
fn is_credit_return(fact: &Fact, me: NodeId, entry: &Queued, way: &Way, served: &Served) -> bool
    ensures { IsTrue result ↔ IsSentAs me entry.now
        (credit_return way.now served.now entry.now.number) fact.now }
{
    let packet = Packet::Message(MessageHeader {
        kind: Kind::Cr,
        req_type: 0,
        size: 0,
        session: way.other,
        number: entry.number,
        request: served.number,
        to_life: way.life,
    });
    is_sent_as(fact, me, entry, way.peer, &packet, &[])
}

// A part of an answer.
fn is_answer_part(
    fact: &Fact,
    me: NodeId,
    entry: &Queued,
    way: &Way,
    served: &Served,
    answer: &Octets,
) -> bool
    requires last { packet_count served.now.size ≤ entry.now.number + 1 }
    ensures { IsTrue result ↔ IsSentAs me entry.now
        (answer_part way.now served.now answer.now entry.now.number) fact.now }
{
    let len = answer.len();
    if len > MOST_MESSAGE_BYTES as usize {
        return false;
    }
    let packet = Packet::Message(MessageHeader {
        kind: Kind::Response,
        req_type: served.req_type,
        size: len as u32,
        session: way.other,
        number: entry.number,
        request: served.number,
        to_life: way.life,
    });
    let index = u32::from(entry.number) + 1 - count(served.size);
    let body = part(answer.bytes(), index);
    is_sent_as(fact, me, entry, way.peer, &packet, body)
}

// A packet of a request's server.
fn is_server_packet(fact: &Fact, me: NodeId, entry: &Queued, way: &Way, served: &Served) -> bool
    ensures { IsTrue result ↔ IsSentIf me entry.now
        (server_packet way.now served.now entry.now.number) fact.now }
{
    if u32::from(entry.number) + 1 < count(served.size) {
        return is_credit_return(fact, me, entry, way, served);
    }
    match &served.answer {
        None => false,
        Some(answer) => is_answer_part(fact, me, entry, way, served, answer),
    }
}

// A packet of the active call of a request.
fn is_call_packet(
    fact: &Fact,
    me: NodeId,
    entry: &Queued,
    client: &Client,
    request: RequestNo,
) -> bool
    ensures { IsTrue result ↔ IsSentIf me entry.now
        (ask_packet request entry.now.number (Some client.now)) fact.now }
{
    let Some(place) = place_of_active(&client.calls, request) else {
        return false;
    };
    let call = client.calls.at(place);
    is_client_packet(fact, me, entry, &client.way, &call.what, request)
}

// A packet of a client session.
fn is_ask_packet(
    fact: &Fact,
    lists: &Lists,
    entry: &Queued,
    session: SessionNo,
    request: RequestNo,
) -> bool
    ensures { IsTrue result ↔ IsSentIf lists.now.me entry.now
        (ask_packet request entry.now.number (find (is_client session) lists.now.clients))
        fact.now }
{
    let Some(place) = place_of_client(&lists.clients, session) else {
        return false;
    };
    is_call_packet(fact, lists.me, entry, lists.clients.at(place), request)
}

// A packet of the request of a server session.
fn is_request_packet(
    fact: &Fact,
    me: NodeId,
    entry: &Queued,
    server: &Server,
    request: RequestNo,
) -> bool
    ensures { IsTrue result ↔ IsSentIf me entry.now
        (reply_packet request entry.now.number (Some server.now)) fact.now }
{
    let Some(place) = place_of_request(&server.slots, request) else {
        return false;
    };
    is_server_packet(fact, me, entry, &server.way, server.slots.at(place))
}

// A packet of a server session.
fn is_reply_packet(
    fact: &Fact,
    lists: &Lists,
    entry: &Queued,
    session: SessionNo,
    request: RequestNo,
) -> bool
    ensures { IsTrue result ↔ IsSentIf lists.now.me entry.now
        (reply_packet request entry.now.number (find (is_server session) lists.now.servers))
        fact.now }
{
    let Some(place) = place_of_server(&lists.servers, session) else {
        return false;
    };
    is_request_packet(fact, lists.me, entry, lists.servers.at(place), request)
}

/// Whether a fact says that a packet of the queue was sent as its owner has it: to its peer, with
/// the header and the body of the packet.
pub fn is_sent(fact: &Fact, lists: &Lists, entry: &Queued) -> bool
    ensures { IsTrue result ↔ IsSentIf lists.now.me entry.now (outgoing lists.now entry.now)
        fact.now }
{
    match entry.owner {
        Owner::Ask { session, request } => is_ask_packet(fact, lists, entry, session, request),
        Owner::Reply { session, request } => is_reply_packet(fact, lists, entry, session, request),
        Owner::Control => false,
    }
}
