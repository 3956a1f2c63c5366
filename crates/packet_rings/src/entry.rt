//! An entry of a transmit ring.
use rpc_base::{Owner, Peer, Place};
use std::marker::Model;

/// A packet that waits to be sent: its owner, its number in its direction of the call, the place of
/// its bytes in the pool, and the peer it goes to. A packet without a body names no place.
#[derive(Clone, Copy, Debug, PartialEq, Eq)]
pub struct Entry {
    pub owner: Owner,
    pub number: u16,
    pub place: Option<Place>,
    pub peer: Peer,
}

impl Model for Entry {
    ghost use Rattle.packet_rings.specs.Values.{EntryValue};

    ghost Value = { EntryValue };

    ghost view = { λ e. record {
      owner = e.owner;
      number = e.number;
      place = e.place;
      peer = e.peer;
    } };

    ghost inverse = { λ e. record {
      owner = e.owner;
      number = e.number;
      place = e.place;
      peer = e.peer;
    } };
}
