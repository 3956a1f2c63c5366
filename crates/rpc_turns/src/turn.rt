//! A turn of a run.
ghost use Rattle.std.specs.Prelude.{◌≡◌, ◌≤◌};
ghost use Rattle.node_steps.specs.Changes.{◌⟶◌};
ghost use Rattle.node_steps.specs.Handed.{GivesBackTo};
ghost use Rattle.endpoint_loop.specs.Polls.{turn_of};
ghost use Rattle.endpoint_loop.specs.Stands.{GoesOn};
ghost use Rattle.rpc_turns.specs.Moments.{outside, rested, where_at};
ghost use Rattle.rpc_turns.specs.Turns.{TakesTurn, TellsTurn};
ghost use Rattle.memory_count.specs.Faults.{HasCause};

use crate::rest::Rest;
use endpoint_loop::{Continuation, Endpoint, LinkFault, Turn};
use memory_count::Memory;
use rpc_outside::{Clock, Link, Recorder, Service};
use worker_crew::Workers;

/// Waits by the link where the run is asleep, takes one number of the clock, and makes one turn of
/// the endpoint then. `LinkFault` comes exactly where a fault of the link came. The workers have
/// the hands that they had.
pub fn take_turn<V, W, L, C, K, R>(
    memory: &mut Memory,
    endpoint: &mut Endpoint<V, W>,
    rest: &mut Rest,
    link: &mut L,
    clock: &mut C,
    k: &mut K,
    rec: &mut R,
) -> Result<Turn, LinkFault>
where
    V: Service,
    W: Workers,
    L: Link,
    C: Clock,
    K: Continuation,
    R: Recorder,
    ensures takes { TakesTurn V.Service W.Workers (outside L.Link C.gave R.log) K.given
        (turn_of result) (where_at (rested endpoint.old rest.old) link.old clock.old rec.old)
        (where_at (rested endpoint.new rest.new) link.new clock.new rec.new) k.old k.new
        (memory.old ⟶ memory.new) }
    ensures tells { TellsTurn V.Service W.Workers (outside L.Link C.gave R.log) K.given
        (where_at endpoint.old link.old clock.old rec.old)
        (where_at endpoint.new link.new clock.new rec.new) k.old k.new }
    ensures goes_on { GoesOn R.log V.Service W.Workers endpoint.old endpoint.new rec.old rec.new }
    ensures cause { HasCause (L.faults link.old) (L.faults link.new) result }
    ensures team { W.team endpoint.new.workers ≡ W.team endpoint.old.workers }
    ensures handed { GivesBackTo K.given endpoint.old.handed endpoint.new.handed k.old k.new }
    ensures no_less { memory.old ≤ memory.new }
{
    rest.sleep(endpoint, link);
    let now = clock.now();
    let turned = endpoint.turn(memory, now, link, k, rec);
    rest.count(turned, endpoint.quiet());
    turned
}
