//! Whether a history is calm so far, and whether packets of calls find room in rings while it is.
ghost use Rattle.std.specs.Prelude.{◌≡◌, ◌++◌, ◌∷◌, [], ◌↔◌, List, IsTrue, is_some};
ghost use Rattle.history_audit.specs.Calm.{finds_full, IsRough};
ghost use Rattle.packet_header.specs.Reading.{message_of};
ghost use Rattle.ring_laws.specs.CalmRing.{is_rough, MessagesFit};
ghost use Rattle.rpc_base.specs.declared.fact.Fact.{Fact};

use packet_header::{Packet, decode};
use rpc_base::{Event, Fact, Who};

/// Whether a datagram was repeated, a call rolled back or a node restarted, by the facts so far.
#[derive(Clone, Copy, Debug)]
pub struct Roughness {
    rough: bool,
}

// Whether an event puts a packet on its way once more, or is a restart.
fn is_rough(event: &Event) -> bool
    ensures { result ≡ is_rough event.now }
{
    matches!(
        event,
        Event::Repeated { .. } | Event::Rolled { .. } | Event::Restarted { .. }
    )
}

// Whether a datagram is a packet of a call.
fn is_message(bytes: &[u8]) -> bool
    ensures { result ≡ is_some (message_of bytes.now) }
{
    match decode(bytes) {
        Ok(Packet::Message(_)) => true,
        Ok(Packet::Control(_)) => false,
        Err(_) => false,
    }
}

// Whether a packet of a call finds a node's ring full.
fn finds_full(fact: &Fact) -> bool
    ensures { result ≡ finds_full fact.now.who fact.now.event fact.now.first }
{
    let Who::Node(_) = fact.who else {
        return false;
    };
    match &fact.event {
        Event::Overflowed { .. } => is_message(fact.first.bytes()),
        _ => false,
    }
}

impl Roughness {
    /// None, before any fact.
    pub fn new() -> Roughness
        ensures { IsRough result.rough [] }
    {
        Roughness { rough: false }
    }

    /// Takes note of the next fact.
    pub fn note(&mut self, fact: &Fact)
        ensures { (h : List Fact) → IsRough self.old.rough h
            → IsRough self.new.rough (h ++ fact.now ∷ []) }
    {
        self.rough = is_rough(&fact.event) || self.rough;
    }

    /// Whether packets of calls find room still while the history is calm, where the next fact is
    /// this one.
    pub fn keeps_fit(&self, fact: &Fact) -> bool
        ensures { (h : List Fact) → IsRough self.now.rough h → MessagesFit h
            → IsTrue result ↔ MessagesFit (h ++ fact.now ∷ []) }
    {
        self.rough || !finds_full(fact)
    }
}
