//! A source, a sink and a link that never fail and take no memory.
ghost use Rattle.std.specs.Prelude.{◌≡◌, ℕ, ◌<◌, ◌≤◌, ◌↔◌, [], length, take, min, None, Some, Ok};
ghost use Rattle.std.specs.Prelude.{IfOk, IsOk};
ghost use Rattle.std.specs.Io.KnownBytes.{Consumes, IsAtEnd};
ghost use Rattle.rpc_outside.specs.declared.link.Got.TheVariants.{Nothing};
ghost use Rattle.rpc_outside.specs.declared.link.Taken.TheVariants.{Whole};
ghost use Rattle.rpc_outside.specs.Linking.{AreCarried, Comes, IfPacket, inbound};

use crate::failed::Failed;
use crate::link::{Got, Link, MOST_LINK_BYTES, Taken};
use crate::memory::arrivals::Arrivals;
use crate::memory::copying::copy_front;
use crate::sink::Sink;
use crate::source::Source;
use rpc_base::{Octets, Peer};
use std::marker::Model;

/// A source that never fails. Contracts see the bytes that are left.
#[derive(Debug, Drop)]
pub struct FirmSource {
    bytes: Vec<u8>,
    at: usize,
}

impl Model for FirmSource {
    ghost use Rattle.std.specs.Prelude.{ℕ, ◌≤◌, List, length, drop};

    ghost Value = { List ℕ };

    ghost view = { λ s. drop s.at s.bytes.items };

    ghost invariant = { λ s. s.at ≤ length s.bytes.items };
}

impl FirmSource {
    /// A source of these bytes.
    pub fn new(bytes: Vec<u8>) -> FirmSource
        ensures { result ≡ bytes.items }
    {
        FirmSource { bytes, at: 0 }
    }
}

impl Source for FirmSource {
    ghost input = { λ s. record { left = Some s; faults = 0 } };

    /// Gives as many bytes as are left and fit into `out`.
    fn read(&mut self, out: &mut [u8]) -> Result<usize, Failed>
        requires { 0 < length out.old }
        ensures fills { result ≡ Ok (min (length self.old) (length out.new)) }
        ensures within { IfOk result (λ n. n ≤ length out.new) }
        ensures bytes { IfOk result (λ n. Consumes (Some self.old) (Some self.new)
            (take n out.new)) }
        ensures end { IfOk result (λ n. n ≡ 0 → IsAtEnd (Some self.old)) }
    {
        let count = copy_front(&self.bytes[self.at..], out);
        self.at += count;
        Ok(count)
    }
}

/// A sink that takes every piece whole and neither keeps nor tells what was written.
#[derive(Clone, Copy, Debug, PartialEq, Eq)]
pub struct FirmSink;

impl FirmSink {
    /// A sink, of which there is one.
    pub fn new() -> FirmSink
        ensures { result ≡ record {} }
    {
        FirmSink
    }
}

impl Sink for FirmSink {
    ghost page = { λ _. record { written = None; faults = 0 } };

    /// Takes the whole piece.
    fn write(&mut self, piece: &[u8]) -> Result<usize, Failed>
        ensures { result ≡ Ok (length piece.now) }
    {
        Ok(piece.len())
    }
}

/// A link that is never busy, and neither keeps nor tells what is sent. Every address is that of
/// peer 0. Contracts see the datagrams that were given out, and those that wait.
#[derive(Debug, Drop)]
pub struct FirmLink {
    arrivals: Arrivals,
}

impl Model for FirmLink {
    ghost use Rattle.rpc_outside.specs.Linking.{Inbound};

    ghost Value = { Inbound };

    ghost view = { λ l. l.arrivals };
}

impl FirmLink {
    /// A link to which these datagrams come, each of at most 2,048 bytes.
    pub fn new(arrivals: Vec<(Peer, Octets)>) -> FirmLink
        requires { AreCarried arrivals.items }
        ensures { result ≡ inbound [] arrivals.items }
    {
        FirmLink {
            arrivals: Arrivals::new(arrivals),
        }
    }
}

impl Link for FirmLink {
    ghost sent = { λ _. None };

    ghost received = { λ l. Some l.received };

    ghost waiting = { λ l. Some l.waiting };

    ghost bound = { λ _. None };

    ghost numbers = { λ _ _. Some 0 };

    ghost faults = { λ _. 0 };

    ghost busies = { λ _. 0 };

    /// Takes every address.
    fn bind(&mut self, _addr: &str) -> Result<(), Failed>
        ensures bound { IsOk result }
        ensures unchanged { self.new ≡ self.old }
    {
        Ok(())
    }

    /// Peer 0.
    fn peer(&mut self, _addr: &str) -> Result<Peer, Failed>
        ensures peer { result ≡ Ok 0 }
        ensures unchanged { self.new ≡ self.old }
    {
        Ok(Peer(0))
    }

    /// Takes the datagram whole.
    fn send(&mut self, _to: Peer, _head: &[u8], _body: &[u8]) -> Result<Taken, Failed>
        ensures taken { result ≡ Ok Whole }
        ensures unchanged { self.new ≡ self.old }
    {
        Ok(Taken::Whole)
    }

    /// Keeps nothing back.
    fn flush(&mut self)
        ensures { self.new ≡ self.old }
    {}

    /// Ends at once.
    fn wait(&mut self, _micros: u32)
        ensures { self.new ≡ self.old }
    {}

    /// Sends each packet by itself.
    fn pack(&mut self, _peer: Peer, _bytes: u32)
        ensures { self.new ≡ self.old }
    {}

    /// Every address is that of peer 0, and stays so.
    fn forget(&mut self, _peer: Peer)
        ensures { self.new ≡ self.old }
    {}

    /// Gives out the datagram that waits longest. Nothing comes exactly where none waits.
    fn recv(&mut self, out: &mut [u8; MOST_LINK_BYTES]) -> Result<Got, Failed>
        ensures packet { IfOk result (λ got. IfPacket got (Comes (λ l. Some l.waiting)
            (λ l. Some l.received) self.old self.new out.new)) }
        ensures nothing { (result ≡ Ok Nothing) ↔ (self.old.waiting ≡ []) }
        ensures unchanged { result ≡ Ok Nothing → self.new ≡ self.old }
        ensures received { IsOk result }
    {
        Ok(self.arrivals.next(out))
    }
}
