//! A datagram with its bytes inline, written where it lies.
ghost use Rattle.std.specs.Prelude.{◌≡◌, ◌≤◌, [], length};
ghost use Rattle.packet_rings.specs.Values.{datagram};

use rpc_base::{MOST_DATAGRAM_BYTES, Peer};
use std::marker::Model;

/// A datagram of at most 1,044 bytes, and the peer that it came from.
#[derive(Drop)]
pub struct Datagram {
    peer: Peer,
    len: usize,
    room: [u8; MOST_DATAGRAM_BYTES],
}

impl Model for Datagram {
    ghost use Rattle.std.specs.Prelude.{◌≤◌, take};
    ghost use Rattle.rpc_base.specs.declared.limits.TheConstants.{MOST_DATAGRAM_BYTES};
    ghost use Rattle.packet_rings.specs.Values.{DatagramValue, datagram};

    ghost Value = { DatagramValue };

    ghost view = { λ d. datagram d.peer (take d.len d.room) };

    ghost invariant = { λ d. d.len ≤ MOST_DATAGRAM_BYTES };
}

impl Datagram {
    /// A datagram without bytes: a place to write one to.
    pub(crate) fn empty() -> Datagram
        ensures { result ≡ datagram 0 [] }
    {
        Datagram {
            peer: Peer(0),
            len: 0,
            room: [0; MOST_DATAGRAM_BYTES],
        }
    }

    /// Writes at most 1,044 bytes over what it was. Just these are copied.
    pub(crate) fn write(&mut self, peer: Peer, bytes: &[u8])
        requires fits { length bytes.now ≤ MOST_DATAGRAM_BYTES }
        ensures { self.new ≡ datagram peer bytes.now }
    {
        let len = bytes.len();
        self.peer = peer;
        self.len = len;
        self.room[..len].copy_from_slice(bytes);
    }

    /// The peer that it came from.
    pub fn peer(&self) -> Peer
        ensures { result ≡ self.now.peer }
    {
        self.peer
    }

    /// Lends its bytes, at most 1,044.
    pub fn bytes(&self) -> &[u8]
        ensures bytes { result.now ≡ self.now.bytes }
        ensures limit { length result.now ≤ MOST_DATAGRAM_BYTES }
    {
        &self.room[..self.len]
    }
}
