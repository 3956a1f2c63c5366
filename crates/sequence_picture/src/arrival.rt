//! Which fact is the arrival of which datagram.
ghost use Rattle.std.specs.Prelude.{◌≡◌, ◌++◌, true, false};
ghost use Rattle.std.specs.Str.{bytes_eq};
ghost use Rattle.sequence_picture.specs.Arrival.{arrives, arrives_at, same_way, sender};
ghost use Rattle.sequence_picture.specs.Arrival.{way_came, way_sent};

use rpc_base::{Event, Fact, NodeId, Peer, Who};

/// From which node to which a datagram goes.
#[derive(Clone, Copy, Debug, PartialEq, Eq)]
pub struct Way {
    pub from: NodeId,
    pub to: NodeId,
}

/// The way of the datagram that this fact sends, if it sends one.
pub fn way_sent(fact: &Fact) -> Option<Way>
    ensures { result ≡ way_sent fact.now }
{
    let Who::Node(from) = fact.who else {
        return None;
    };
    if let Event::Sent { peer, .. } = &fact.event {
        return Some(Way {
            from,
            to: NodeId(peer.0),
        });
    }
    None
}

// Who sent the datagram that comes to a node by this event, if one does.
fn sender(event: &Event) -> Option<Peer>
    ensures { result ≡ sender event.now }
{
    if let Event::Arrived { peer } | Event::Overflowed { peer } | Event::Bad { peer } = event {
        return Some(*peer);
    }
    None
}

// The way of the datagram that comes by this fact, if one does: into the ring or the inbox, or it
// finds no room, or it is no packet.
fn way_came(fact: &Fact) -> Option<Way>
    ensures { result ≡ way_came fact.now }
{
    let Who::Node(to) = fact.who else {
        return None;
    };
    let peer = sender(&fact.event)?;
    Some(Way {
        from: NodeId(peer.0),
        to,
    })
}

// Whether a datagram of this head and body is these bytes.
fn are_bytes(bytes: &[u8], head: &[u8], body: &[u8]) -> bool
    ensures { result ≡ bytes_eq bytes.now (head.now ++ body.now) }
{
    match bytes.strip_prefix(head) {
        Some(rest) => rest == body,
        None => false,
    }
}

fn same_way(sent: Option<Way>, came: Option<Way>) -> bool
    ensures { result ≡ same_way sent came }
{
    match (sent, came) {
        (Some(sent), Some(came)) => sent.from.0 == came.from.0 && sent.to.0 == came.to.0,
        _ => false,
    }
}

// Whether the second fact is an arrival of the datagram that the first one sends.
fn arrives(sent: &Fact, came: &Fact) -> bool
    ensures { result ≡ arrives sent.now came.now }
{
    same_way(way_sent(sent), way_came(came))
        && are_bytes(came.first.bytes(), sent.first.bytes(), sent.second.bytes())
}

/// Whether the fact at `came` is an arrival of the datagram that the fact at `sent` sends.
pub fn arrives_at(facts: &[Fact], sent: usize, came: usize) -> bool
    ensures { result ≡ arrives_at facts.now sent came }
{
    match (facts.get(sent), facts.get(came)) {
        (Some(sent), Some(came)) => arrives(sent, came),
        _ => false,
    }
}
