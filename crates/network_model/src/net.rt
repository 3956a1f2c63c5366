//! The copies in flight, numbered from 0 on by their order.
ghost use Rattle.std.specs.Prelude.{◌≡◌, ◌++◌, ◌∷◌, ◌≤◌, ◌↔◌, [], List, Some, None, length, nat_lt};
ghost use Rattle.std.specs.Prelude.{slice_get, IfOk, OnOk, OnErr, IfSome, IfNone};
ghost use Rattle.std.specs.List.{remove};
ghost use Rattle.rpc_laws.specs.declared.tables.InFlight.{InFlight};
ghost use Rattle.rpc_base.specs.declared.event.Event.{Event};
ghost use Rattle.memory_count.specs.Faults.{HasCause};
ghost use Rattle.rpc_laws.specs.InFlight.{flight_after_net};

use crate::datagram::joined;
use memory_count::{Memory, NoMemory};
use rpc_base::{NodeId, Octets};
use rpc_laws::InFlight;
use std::alloc::Global;
use std::collections::VecDeque;
use std::marker::Model;

/// The list of copies in flight. Contracts see the list, from the copy that was sent first on.
#[derive(Debug, Drop)]
pub struct Net {
    copies: VecDeque<InFlight>,
}

impl Model for Net {
    ghost Value = { List InFlight };

    ghost view = { λ n. n.copies.items };
}

impl Net {
    /// No copy in flight. Takes no memory yet.
    pub fn new(alloc: Global) -> Net
        ensures { result ≡ [] }
    {
        Net {
            copies: VecDeque::new(alloc),
        }
    }

    /// How many copies are in flight.
    pub fn len(&self) -> usize
        ensures { result ≡ length self.now }
    {
        self.copies.len()
    }

    /// Puts one copy of a datagram of this head and body at the end. `NoMemory` comes only where
    /// there is no memory for it, and then nothing changed.
    pub fn send(
        &mut self,
        memory: &mut Memory,
        from: NodeId,
        to: NodeId,
        head: &[u8],
        body: &[u8],
    ) -> Result<(), NoMemory>
        ensures sent { OnOk result
            (self.new ≡ self.old ++ record { from = from; to = to; bytes = head.now ++ body.now }
            ∷ []) }
        ensures unchanged { OnErr result (self.new ≡ self.old) }
        ensures cause { HasCause memory.old memory.new result }
    {
        let bytes = joined(memory, head, body)?;
        self.put(memory, InFlight { from, to, bytes })?;
        Ok(())
    }

    // Puts a copy at the end.
    pub(crate) fn put(&mut self, memory: &mut Memory, copy: InFlight) -> Result<(), NoMemory>
        ensures put { OnOk result (self.new ≡ self.old ++ copy ∷ []) }
        ensures unchanged { OnErr result (self.new ≡ self.old) }
        ensures cause { HasCause memory.old memory.new result }
    {
        memory
            .push_back(&mut self.copies, copy)
            .map_err(|_| NoMemory)
    }

    // The nearer side of the list closes up, so that copies near the front are taken out at once.
    fn take_out(&mut self, i: u32) -> Option<InFlight>
        ensures copy { result ≡ slice_get self.old i }
        ensures others { self.new ≡ remove self.old i }
    {
        self.copies.remove(i as usize)
    }

    /// Takes out copy `i`, which arrives. `None` comes exactly where there is no such copy, and
    /// then nothing changed.
    pub fn carry(&mut self, i: u32) -> Option<InFlight>
        ensures copy { result ≡ slice_get self.old i }
        ensures others { self.new ≡ flight_after_net (Event.Carried i) self.old }
        ensures missed { (result ≡ None) ↔ (length self.old ≤ i) }
    {
        self.take_out(i)
    }

    /// Takes out copy `i`, which is lost. `None` comes exactly where there is no such copy, and
    /// then nothing changed.
    pub fn lose(&mut self, i: u32) -> Option<InFlight>
        ensures copy { result ≡ slice_get self.old i }
        ensures others { self.new ≡ flight_after_net (Event.Lost i) self.old }
        ensures missed { (result ≡ None) ↔ (length self.old ≤ i) }
    {
        self.take_out(i)
    }

    fn copy_at(&self, i: u32) -> Option<&InFlight>
        ensures there { IfSome result (λ copy. slice_get self.now i ≡ Some copy.now) }
        ensures missed { IfNone result (slice_get self.now i ≡ None) }
    {
        self.copies.get(i as usize)
    }

    /// Puts one more copy of copy `i` at the end, and tells whether there is such a copy.
    /// `NoMemory` comes only where there is no memory for it. Where no copy was put nothing
    /// changed.
    pub fn repeat(&mut self, memory: &mut Memory, i: u32) -> Result<bool, NoMemory>
        ensures repeated { OnOk result (self.new ≡ flight_after_net (Event.Repeated i) self.old) }
        ensures there { IfOk result (λ is_there. is_there ≡ nat_lt i (length self.old)) }
        ensures unchanged { OnErr result (self.new ≡ self.old) }
        ensures cause { HasCause memory.old memory.new result }
    {
        let Some(first) = self.copy_at(i) else {
            return Ok(false);
        };
        let (from, to) = (first.from, first.to);
        let bytes = Octets::from(memory.copied(first.bytes.bytes())?);
        self.put(memory, InFlight { from, to, bytes })?;
        Ok(true)
    }
}
