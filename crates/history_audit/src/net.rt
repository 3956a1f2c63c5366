//! Whether the network notes its own events.
ghost use Rattle.std.specs.Prelude.{◌≡◌, ◌++◌, ◌∷◌, [], ◌↔◌, List, IsTrue};
ghost use Rattle.one_history.specs.NetFacts.{AllOfNet, is_of_net};
ghost use Rattle.rpc_base.specs.declared.fact.Fact.{Fact};

use rpc_base::{Event, Fact, Who};

// Whether it is an event that the network notes.
fn is_of_net(event: &Event) -> bool
    ensures { result ≡ is_of_net event.now }
{
    matches!(
        event,
        Event::Carried { .. }
            | Event::Lost { .. }
            | Event::Repeated { .. }
            | Event::Missed { .. }
            | Event::Ticked { .. }
    )
}

/// Whether the network notes its own events still, where the next fact is this one.
pub fn keeps_net(fact: &Fact) -> bool
    ensures { (h : List Fact) → AllOfNet h
        → IsTrue result ↔ AllOfNet (h ++ fact.now ∷ []) }
{
    match fact.who {
        Who::Node(_) => true,
        Who::Net => is_of_net(&fact.event),
    }
}
