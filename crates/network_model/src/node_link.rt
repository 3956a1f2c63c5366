//! The network as the link of one node.
ghost use Rattle.std.specs.Prelude.{◌≡◌, ◌≢◌, ◌++◌, ◌∷◌, [], Ok, None, Some, map, IfOk, IsOk};
ghost use Rattle.std.specs.Prelude.{OnErr, OnOk};
ghost use Rattle.network_model.specs.Sending.{copy_from};
ghost use Rattle.memory_count.specs.Faults.{HasCause};
ghost use Rattle.rpc_outside.specs.declared.link.Got.TheVariants.{Nothing};
ghost use Rattle.rpc_outside.specs.declared.link.Taken.TheVariants.{Whole};

use crate::datagram::joined;
use crate::net::Net;
use memory_count::{Memory, NoMemory};
use rpc_base::{NodeId, Octets, Peer};
use rpc_laws::InFlight;
use rpc_outside::{Failed, Got, Link, MOST_LINK_BYTES, Taken};
use std::alloc::Global;
use std::marker::Model;

/// The link by which one node sends into the network: a peer's number is its node's. It is never
/// busy, and fails where memory is wanting. Nothing comes from it, since a script says what
/// arrives. Contracts see what was sent, and how often its memory was refused.
#[derive(Debug, Drop)]
pub struct NodeLink {
    sent: Vec<(Peer, Octets)>,
    memory: Memory,
}

impl Model for NodeLink {
    ghost use Rattle.network_model.specs.Sending.{Sending};

    ghost Value = { Sending };

    ghost view = { λ l. record { sent = l.sent.items; faults = l.memory } };
}

impl NodeLink {
    /// A link by which nothing was sent. Takes no memory yet.
    pub fn new(alloc: Global) -> NodeLink
        ensures { result ≡ record { sent = []; faults = 0 } }
    {
        NodeLink {
            sent: Vec::new(alloc),
            memory: Memory::new(alloc),
        }
    }

    /// Its memory, which tells how often it was refused.
    pub fn memory(&self) -> &Memory
        ensures { result.now ≡ self.now.faults }
    {
        &self.memory
    }

    /// Puts what was sent into the network as of node `me`, in order, behind what is in flight.
    /// Nothing is copied. `NoMemory` comes only where there is no memory for the places.
    pub fn send_into(self, memory: &mut Memory, me: NodeId, net: &mut Net) -> Result<(), NoMemory>
        ensures sent { OnOk result (net.new ≡ net.old ++ map (copy_from me) self.sent) }
        ensures cause { HasCause memory.old memory.new result }
    {
        'datagrams: for (to, bytes) in self.sent {
            let copy = InFlight {
                from: me,
                to: NodeId(to.0),
                bytes,
            };
            net.put(memory, copy)?;
        }
        Ok(())
    }
}

impl Link for NodeLink {
    ghost sent = { λ l. Some l.sent };

    ghost received = { λ l. Some [] };

    ghost waiting = { λ l. Some [] };

    ghost bound = { λ _. None };

    ghost numbers = { λ _ _. None };

    ghost faults = { λ l. l.faults };

    ghost busies = { λ l. 0 };

    /// Takes every address.
    fn bind(&mut self, _addr: &str) -> Result<(), Failed>
        ensures unchanged { self.new ≡ self.old }
        ensures taken { IsOk result }
        ensures cause { HasCause self.old.faults self.new.faults result }
    {
        Ok(())
    }

    /// Peer 0.
    fn peer(&mut self, _addr: &str) -> Result<Peer, Failed>
        ensures unchanged { self.new ≡ self.old }
        ensures peer { result ≡ Ok 0 }
        ensures cause { HasCause self.old.faults self.new.faults result }
    {
        Ok(Peer(0))
    }

    /// Sends the datagram whole. It fails only where memory is wanting, and then nothing was sent.
    fn send(&mut self, to: Peer, head: &[u8], body: &[u8]) -> Result<Taken, Failed>
        ensures taken { IfOk result (λ t. t ≡ Whole) }
        ensures kept { OnOk result
            (self.new.sent ≡ self.old.sent ++ (to, head.now ++ body.now) ∷ []) }
        ensures unsent { OnErr result (self.new.sent ≡ self.old.sent) }
        ensures cause { HasCause self.old.faults self.new.faults result }
    {
        if keep(&mut self.memory, &mut self.sent, to, head, body).is_err() {
            return Err(Failed);
        }
        Ok(Taken::Whole)
    }

    /// Nothing.
    fn recv(&mut self, _out: &mut [u8; MOST_LINK_BYTES]) -> Result<Got, Failed>
        ensures unchanged { self.new ≡ self.old }
        ensures nothing { result ≡ Ok Nothing }
        ensures cause { HasCause self.old.faults self.new.faults result }
    {
        Ok(Got::Nothing)
    }

    /// Keeps nothing back.
    fn flush(&mut self)
        ensures { self.new ≡ self.old }
    {}

    /// Ends at once.
    fn wait(&mut self, _micros: u32)
        ensures { self.new ≡ self.old }
    {}

    /// Sends each packet by itself.
    fn pack(&mut self, _peer: Peer, _bytes: u32)
        ensures { self.new ≡ self.old }
    {}

    /// A peer's number stays that of its node.
    fn forget(&mut self, _peer: Peer)
        ensures { self.new ≡ self.old }
    {}
}

// Keeps a datagram behind those that were sent before.
fn keep(
    memory: &mut Memory,
    sent: &mut Vec<(Peer, Octets)>,
    to: Peer,
    head: &[u8],
    body: &[u8],
) -> Result<(), NoMemory>
    ensures kept { OnOk result
        (sent.new.items ≡ sent.old.items ++ (to, head.now ++ body.now) ∷ []) }
    ensures unchanged { OnErr result (sent.new.items ≡ sent.old.items) }
    ensures cause { HasCause memory.old memory.new result }
{
    let bytes = joined(memory, head, body)?;
    memory.push(sent, (to, bytes))
}
