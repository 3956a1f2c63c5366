//! The greatest known life of each peer, as events change them.
ghost use Rattle.std.specs.Prelude.{◌≡◌};
ghost use Rattle.rpc_laws.specs.Front.{control_of};
ghost use Rattle.rpc_laws.specs.Lives.{known_after, known_life, life_in, raised, raised_by};

use crate::reading::read_control;
use packet_header::{ControlHeader, ControlKind, Life};
use rpc_base::{Event, Listed, Owner, Peer};

/// The greatest life that is known of a peer, by the peers' numbers; 0 where none is.
pub fn known_life(known: &Listed<Life>, peer: Peer) -> Life
    ensures { result ≡ known_life peer known.now }
{
    let place = usize::from(peer.0);
    if place < known.len() {
        return *known.at(place);
    }
    Life(0)
}

// A life of a peer comes to be known: the greatest is kept.
fn raise(known: &mut Listed<Life>, peer: Peer, life: Life)
    ensures { known.new ≡ raised peer life known.old }
{
    let place = usize::from(peer.0);
    if place < known.len() {
        let greatest = known.at(place).0.max(life.0);
        known.set(place, Life(greatest));
    }
}

// The life that a connect reply goes to; no other packet tells one.
fn life_in(head: &Option<ControlHeader>) -> Option<Life>
    ensures { result ≡ life_in head.now }
{
    let Some(head) = head else {
        return None;
    };
    match head.kind {
        ControlKind::ConnectReply => head.to_life,
        ControlKind::ConnectRequest => None,
        ControlKind::DisconnectRequest => None,
        ControlKind::DisconnectReply => None,
    }
}

// A control packet was handed to the link.
fn raise_by(known: &mut Listed<Life>, peer: Peer, bytes: &[u8])
    ensures { known.new ≡ raised_by peer (life_in (control_of bytes.now)) known.old }
{
    if let Some(life) = life_in(&read_control(bytes)) {
        raise(known, peer, life);
    }
}

/// The greatest known lives after an event of their node, which has these bytes.
pub fn change_known(known: &mut Listed<Life>, event: &Event, bytes: &[u8])
    ensures { known.new ≡ known_after event.now bytes.now known.old }
{
    match event {
        Event::PairedClient { peer, life, .. } => raise(known, *peer, Life(*life)),
        Event::PairedServer { peer, life, .. } => raise(known, *peer, Life(*life)),
        Event::Sent { peer, owner, .. } => match owner {
            Owner::Control => raise_by(known, *peer, bytes),
            Owner::Ask { .. } | Owner::Reply { .. } => {}
        },
        Event::Unsent { peer } => raise_by(known, *peer, bytes),
        _ => {}
    }
}
