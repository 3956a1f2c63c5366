//! A link in memory, which fails and is busy exactly where it is told to.
ghost use Rattle.std.specs.Prelude.{◌≡◌, ◌≢◌, ◌+◌, ◌≤◌, ◌↔◌, [], ◌∷◌, ◌++◌, length, take};
ghost use Rattle.std.specs.Prelude.{slice_get, option_map, vec_len, vec_capacity, None, Some, Ok};
ghost use Rattle.std.specs.Prelude.{IsErr};
ghost use Rattle.std.specs.Prelude.{IsOk, IsNone, IsSome, IfOk, IfSome, OnOk, OnErr};
ghost use Rattle.rpc_outside.specs.CallLog.{IsNamed, IsLogged, fresh, passed, failed};
ghost use Rattle.memory_count.specs.Faults.{HasCause, HasRisen};
ghost use Rattle.rpc_outside.specs.Linking.{AreCarried, Comes, IfPacket};
ghost use Rattle.rpc_outside.specs.Memory.{FailsToSend, HasNoRoom, IsBusy};
ghost use Rattle.rpc_outside.specs.declared.link.Got.TheVariants.{Nothing};
ghost use Rattle.rpc_outside.specs.declared.link.Taken.TheVariants.{Whole, Busy};

use crate::failed::Failed;
use crate::link::{Got, Link, MOST_LINK_BYTES, Taken};
use crate::memory::address::{Address, MOST_ADDRESS_BYTES};
use crate::memory::arrivals::Arrivals;
use crate::memory::calls::Calls;
use memory_count::{Memory, NoMemory};
use rpc_base::{Octets, Peer};
use std::marker::Model;

/// Writes these bytes over those of `room` from place `at` on.
fn put(room: &mut [u8], at: usize, bytes: &[u8])
    requires { at + length bytes.now ≤ length room.old }
    ensures { take (at + length bytes.now) room.new ≡ take at room.old ++ bytes.now }
{
    room[at..at + bytes.len()].copy_from_slice(bytes);
}

/// A datagram that was sent, with its bytes inline, so that a list of them takes memory once.
#[derive(Debug, Drop)]
struct Sent {
    to: Peer,
    len: usize,
    bytes: [u8; MOST_LINK_BYTES],
}

impl Model for Sent {
    ghost use Rattle.std.specs.Prelude.{◌≤◌, take};
    ghost use Rattle.rpc_outside.specs.Linking.{Carried};
    ghost use Rattle.rpc_outside.specs.declared.link.TheConstants.{MOST_LINK_BYTES};

    ghost Value = { Carried };

    ghost view = { λ s. (s.to, take s.len s.bytes) };

    ghost invariant = { λ s. s.len ≤ MOST_LINK_BYTES };
}

impl Sent {
    /// A datagram of head and body, which have at most 2,048 bytes together.
    fn of(to: Peer, head: &[u8], body: &[u8]) -> Sent
        requires { length head.now + length body.now ≤ MOST_LINK_BYTES }
        ensures { result ≡ (to, head.now ++ body.now) }
    {
        let mut bytes = [0; MOST_LINK_BYTES];
        let len = head.len() + body.len();
        put(&mut bytes, 0, head);
        put(&mut bytes, head.len(), body);
        Sent { to, len, bytes }
    }

    fn bytes(&self) -> &[u8]
        ensures { result.now ≡ self.now.1 }
    {
        &self.bytes[..self.len]
    }
}

/// Puts one more datagram at the end, where there is room for it.
fn keep(sent: &mut Vec<Sent>, room: usize, to: Peer, head: &[u8], body: &[u8]) -> Result<(), Failed>
    requires { room ≤ vec_capacity sent.old }
    ensures full { IsErr result
        ↔ HasNoRoom sent.old.items room (length head.now + length body.now) }
    ensures kept { OnOk result (sent.new.items
        ≡ sent.old.items ++ (to, head.now ++ body.now) ∷ []) }
    ensures unchanged { OnErr result (sent.new.items ≡ sent.old.items) }
    ensures capacity { room ≤ vec_capacity sent.new }
{
    if sent.len() >= room || head.len() + body.len() > MOST_LINK_BYTES {
        return Err(Failed);
    }
    // The memory was taken with the list, so this always goes well.
    match sent.push(Sent::of(to, head, body)) {
        Ok(()) => Ok(()),
        Err(_) => Err(Failed),
    }
}

/// A link that keeps what is sent. Every address is that of peer 0. Contracts see the datagrams
/// that were sent, that were given out and that wait, the address that was bound last, the room,
/// and the logs of the calls and of the sends.
#[derive(Debug, Drop)]
pub struct MemLink {
    arrivals: Arrivals,
    bound: Address,
    sent: Vec<Sent>,
    room: usize,
    calls: Calls,
    /// The sends by themselves, of which the named ones are busy.
    sends: Calls,
}

impl Model for MemLink {
    ghost use Rattle.std.specs.Prelude.{◌≤◌, vec_len, vec_capacity};
    ghost use Rattle.rpc_outside.specs.Memory.{Linked};

    ghost Value = { Linked };

    ghost view = { λ l. record {
      sent = l.sent.items;
      received = l.arrivals.received;
      waiting = l.arrivals.waiting;
      bound = l.bound;
      room = l.room;
      log = l.calls;
      sends = l.sends;
    } };

    ghost invariant = { λ l. (vec_len l.sent ≤ l.room) × (l.room ≤ vec_capacity l.sent) };
}

impl MemLink {
    /// A link to which these datagrams come, each of at most 2,048 bytes, and with room for `room`
    /// datagrams to be sent, for which it takes the memory now. `fails` names the calls that fail,
    /// the first call having number 0; `busy` names the sends that are busy, the first send having
    /// number 0. `NoMemory` comes only where memory was refused, and never without room, as none is
    /// taken then.
    pub fn new(
        memory: &mut Memory,
        arrivals: Vec<(Peer, Octets)>,
        room: u32,
        fails: Vec<u64>,
        busy: Vec<u64>,
    ) -> Result<MemLink, NoMemory>
        requires { AreCarried arrivals.items }
        ensures made { IfOk result (λ l. l ≡ record {
          sent = [];
          received = [];
          waiting = arrivals.items;
          bound = None;
          room = room;
          log = fresh fails.items;
          sends = fresh busy.items;
        }) }
        ensures succeeds { room ≡ 0 → IsOk result }
        ensures cause { HasCause memory.old memory.new result }
    {
        let sent = memory.list(room as usize)?;
        Ok(MemLink {
            arrivals: Arrivals::new(arrivals),
            bound: Address::none(),
            sent,
            room: room as usize,
            calls: Calls::new(fails),
            sends: Calls::new(busy),
        })
    }

    /// The peer and the bytes of the datagram that was sent as number `i`, from 0 on. None exactly
    /// where at most `i` were sent.
    pub fn sent(&self, i: u32) -> Option<(Peer, &[u8])>
        ensures { option_map (λ d. (d.0, d.1.now)) result ≡ slice_get self.now.sent i }
    {
        let datagram = self.sent.get(i as usize)?;
        Some((datagram.to, datagram.bytes()))
    }
}

impl Link for MemLink {
    ghost sent = { λ l. Some l.sent };

    ghost received = { λ l. Some l.received };

    ghost waiting = { λ l. Some l.waiting };

    ghost bound = { λ l. l.bound };

    ghost numbers = { λ _ _. Some 0 };

    ghost faults = { λ l. l.log.faults };

    ghost busies = { λ l. l.sends.faults };

    /// Takes every address, and tells it where it has at most 64 bytes. It fails exactly where its
    /// call is named.
    fn bind(&mut self, addr: &str) -> Result<(), Failed>
        ensures named { IsErr result ↔ IsNamed self.old.log }
        ensures bound { OnOk result (IfSome self.new.bound (λ bytes. bytes ≡ addr.now)) }
        ensures told { OnOk result (length addr.now ≤ MOST_ADDRESS_BYTES
            → IsSome self.new.bound) }
        ensures unbound { OnErr result (self.new.bound ≡ self.old.bound) }
        ensures logged { IsLogged self.old.log self.new.log result }
        ensures cause { HasCause self.old.log.faults self.new.log.faults result }
        ensures rest { self.new
            ≡ record self.old { bound = self.new.bound; log = self.new.log } }
    {
        self.calls.make()?;
        self.bound = Address::of(addr);
        Ok(())
    }

    /// Peer 0. It fails exactly where its call is named.
    fn peer(&mut self, _addr: &str) -> Result<Peer, Failed>
        ensures named { IsErr result ↔ IsNamed self.old.log }
        ensures peer { IfOk result (λ peer. peer ≡ 0) }
        ensures logged { IsLogged self.old.log self.new.log result }
        ensures cause { HasCause self.old.log.faults self.new.log.faults result }
        ensures rest { self.new ≡ record self.old { log = self.new.log } }
    {
        self.calls.make()?;
        Ok(Peer(0))
    }

    /// Sends the datagram whole. It fails where its call is named, is busy where its number among
    /// the sends is named, and fails else exactly where as many datagrams were sent as there is
    /// room for, or head and body have more than 2,048 bytes.
    fn send(&mut self, to: Peer, head: &[u8], body: &[u8]) -> Result<Taken, Failed>
        ensures fails { IsErr result
            ↔ FailsToSend self.old (length head.now + length body.now) }
        ensures named { (result ≡ Ok Busy) ↔ IsBusy self.old }
        ensures whole { result ≡ Ok Whole → self.new.sent
            ≡ self.old.sent ++ (to, head.now ++ body.now) ∷ [] }
        ensures busy { result ≡ Ok Busy → HasRisen self.old.sends.faults self.new.sends.faults }
        ensures turn { result ≡ Ok Busy → self.new.sends ≡ failed self.old.sends }
        ensures other_turn { result ≢ Ok Busy → self.new.sends ≡ passed self.old.sends }
        ensures unsent { result ≢ Ok Whole → (self.new.sent ≡ self.old.sent) }
        ensures logged { IsLogged self.old.log self.new.log result }
        ensures cause { HasCause self.old.log.faults self.new.log.faults result }
        ensures rest { self.new ≡ record self.old {
          sent = self.new.sent;
          log = self.new.log;
          sends = self.new.sends;
        } }
    {
        if self.calls.is_named() {
            self.calls.fail();
            self.sends.pass();
            return Err(Failed);
        }
        if self.sends.is_named() {
            self.calls.pass();
            self.sends.fail();
            return Ok(Taken::Busy);
        }
        self.sends.pass();
        if keep(&mut self.sent, self.room, to, head, body).is_err() {
            self.calls.fail();
            return Err(Failed);
        }
        self.calls.pass();
        Ok(Taken::Whole)
    }

    /// Gives out the datagram that waits longest. It fails exactly where its call is named, and
    /// nothing comes else exactly where none waits.
    fn recv(&mut self, out: &mut [u8; MOST_LINK_BYTES]) -> Result<Got, Failed>
        ensures named { IsErr result ↔ IsNamed self.old.log }
        ensures packet { IfOk result (λ got. IfPacket got (Comes (λ l. Some l.waiting)
            (λ l. Some l.received) self.old self.new out.new)) }
        ensures nothing { IfOk result (λ got. (got ≡ Nothing) ↔ (self.old.waiting ≡ [])) }
        ensures logged { IsLogged self.old.log self.new.log result }
        ensures cause { HasCause self.old.log.faults self.new.log.faults result }
        ensures same { result ≡ Ok Nothing → self.new ≡ record self.old { log = self.new.log } }
        ensures fault { OnErr result (self.new ≡ record self.old { log = self.new.log }) }
        ensures rest { self.new ≡ record self.old {
          log = self.new.log;
          received = self.new.received;
          waiting = self.new.waiting;
        } }
    {
        self.calls.make()?;
        Ok(self.arrivals.next(out))
    }

    /// Keeps nothing back.
    fn flush(&mut self)
        ensures { self.new ≡ self.old }
    {}

    /// Ends at once.
    fn wait(&mut self, _micros: u32)
        ensures { self.new ≡ self.old }
    {}

    /// Sends each packet by itself.
    fn pack(&mut self, _peer: Peer, _bytes: u32)
        ensures { self.new ≡ self.old }
    {}

    /// Every address is that of peer 0, and stays so.
    fn forget(&mut self, _peer: Peer)
        ensures { self.new ≡ self.old }
    {}
}
