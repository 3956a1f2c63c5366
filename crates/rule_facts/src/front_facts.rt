//! Facts that both rules of the ring's packets compare: a drop, and bytes in two pieces.
ghost use Rattle.std.specs.Prelude.{◌≡◌, ◌++◌, ◌∷◌, []};
ghost use Rattle.std.specs.Str.{bytes_eq};
ghost use Rattle.rpc_base.specs.declared.event.Event.TheVariants.{Dropped};
ghost use Rattle.rpc_laws.specs.Facts.{plain};
ghost use Rattle.rule_facts.specs.Fronts.{Fronts};

use crate::finishing::is_same;
use crate::says::says_dropped;
use rpc_base::{DropReason, Fact, NodeId};

/// Whether bytes are these two pieces, joined.
pub fn is_joined(told: &[u8], front: &[u8], back: &[u8]) -> bool
    ensures { result ≡ bytes_eq told.now (front.now ++ back.now) }
{
    let middle = front.len();
    if told.len() != middle + back.len() {
        return false;
    }
    is_same(&told[..middle], front) && is_same(&told[middle..], back)
}

/// How many of the facts say that the packet in front was dropped, for this reason: one, or `None`
/// exactly where the first fact doesn't.
pub fn dropped(me: NodeId, reason: DropReason, facts: &[Fact]) -> Option<usize>
    ensures { Fronts (plain me (Dropped reason) ∷ []) facts.now result }
{
    if facts.is_empty() || !says_dropped(&facts[0], me, reason) {
        return None;
    }
    Some(1)
}
