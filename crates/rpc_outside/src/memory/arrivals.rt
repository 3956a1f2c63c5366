//! The datagrams that come to a link in memory.
ghost use Rattle.std.specs.Prelude.{◌≡◌, ◌↔◌, [], Some, OnOk};
ghost use Rattle.rpc_outside.specs.declared.link.Got.TheVariants.{Nothing};
ghost use Rattle.rpc_outside.specs.Linking.{AreCarried, Comes, IfPacket, inbound};

use crate::link::{Got, MOST_LINK_BYTES};
use rpc_base::{Octets, Peer};
use std::marker::Model;

/// Datagrams that are given out once, in order. Contracts see those that were, and those that wait.
#[derive(Debug, Drop)]
pub struct Arrivals {
    datagrams: Vec<(Peer, Octets)>,
    at: usize,
}

impl Model for Arrivals {
    ghost use Rattle.std.specs.Prelude.{◌≤◌, length, take, drop};
    ghost use Rattle.rpc_outside.specs.Linking.{AreCarried, Inbound, inbound};

    ghost Value = { Inbound };

    ghost view = { λ a. inbound (take a.at a.datagrams.items) (drop a.at a.datagrams.items) };

    ghost invariant = { λ a. (a.at ≤ length a.datagrams.items) × AreCarried a.datagrams.items };
}

impl Arrivals {
    /// Of these datagrams, each of at most 2,048 bytes, none was given out.
    pub fn new(datagrams: Vec<(Peer, Octets)>) -> Arrivals
        requires { AreCarried datagrams.items }
        ensures { result ≡ inbound [] datagrams.items }
    {
        Arrivals { datagrams, at: 0 }
    }

    /// Gives out the first that waits. Nothing comes exactly where none waits.
    pub fn next(&mut self, out: &mut [u8; MOST_LINK_BYTES]) -> Got
        ensures packet { IfPacket result (λ peer len. Comes (λ a. Some a.waiting)
            (λ a. Some a.received) self.old self.new out.new peer len) }
        ensures nothing { (result ≡ Nothing) ↔ (self.old.waiting ≡ []) }
        ensures unchanged { result ≡ Nothing → self.new ≡ self.old }
    {
        let Some(datagram) = self.datagrams.get(self.at) else {
            return Got::Nothing;
        };
        let bytes = datagram.1.bytes();
        let len = bytes.len();
        out[..len].copy_from_slice(bytes);
        self.at += 1;
        Got::Packet {
            peer: datagram.0,
            len,
        }
    }
}
