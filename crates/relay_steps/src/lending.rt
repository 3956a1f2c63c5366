//! What is done with the desk of an endpoint while the endpoint lends it.
ghost use Rattle.std.specs.Prelude.{◌≡◌, ◌+◌, ◌++◌, ◌∷◌, [], IfNone, IfSome};
ghost use Rattle.deferred_calls.specs.Moves.{Answers, HandsOut};
ghost use Rattle.desk_laws.specs.Staying.{with_desk};
ghost use Rattle.relays.specs.Relaying.{Settles, Stands};

use client_core::Done;
use deferred_calls::{Checked, Deferred, Desk};
use endpoint_loop::Endpoint;
use relays::Relays;
use rpc_outside::Service;

// A handle for the oldest job of the endpoint's desk that has none.
pub(crate) fn next_handle<V: Service, D: Checked>(
    endpoint: &mut Endpoint<V, Desk<D>>,
    relays: &Relays,
) -> Option<Deferred>
    requires stands { Stands endpoint.old.workers [] relays.now }
    ensures others { endpoint.new ≡ with_desk endpoint.old endpoint.new.workers }
    ensures hands_out { HandsOut result endpoint.old.workers endpoint.new.workers }
    ensures some { IfSome result (λ n. Stands endpoint.new.workers (n ∷ []) relays.now) }
    ensures none { IfNone result (Stands endpoint.new.workers [] relays.now) }
{
    relays.next(endpoint.workers())
}

// Keeps the handle of a job that was asked.
pub(crate) fn keep_handle<V: Service, D: Checked>(
    endpoint: &mut Endpoint<V, Desk<D>>,
    relays: &mut Relays,
    handle: Deferred,
)
    requires stands { Stands endpoint.old.workers (handle ∷ []) relays.old }
    ensures same { endpoint.new ≡ endpoint.old }
    ensures stands { Stands endpoint.new.workers [] relays.new }
    ensures asked { relays.new ≡ record relays.old { asked = relays.old.asked ++ handle ∷ [] } }
{
    relays.keep(endpoint.workers(), handle);
}

// Answers a job here, and counts it.
pub(crate) fn work_job<V: Service, D: Checked>(
    endpoint: &mut Endpoint<V, Desk<D>>,
    relays: &mut Relays,
    handle: Deferred,
)
    requires stands { Stands endpoint.old.workers (handle ∷ []) relays.old }
    ensures others { endpoint.new ≡ with_desk endpoint.old endpoint.new.workers }
    ensures answers { Answers D.answer handle endpoint.old.workers endpoint.new.workers }
    ensures stands { Stands endpoint.new.workers [] relays.new }
    ensures counted { relays.new ≡ record relays.old { here = relays.old.here + 1 } }
{
    relays.work_here(endpoint.workers(), handle);
}

/// Answers the job whose call is over, where one of its tag was asked.
pub fn settle_one<V: Service, D: Checked>(
    endpoint: &mut Endpoint<V, Desk<D>>,
    relays: &mut Relays,
    done: &Done,
)
    requires stands { Stands endpoint.old.workers [] relays.old }
    ensures others { endpoint.new ≡ with_desk endpoint.old endpoint.new.workers }
    ensures stands { Stands endpoint.new.workers [] relays.new }
    ensures settles { Settles D.answer done.now endpoint.old.workers endpoint.new.workers
        relays.old relays.new }
{
    relays.settle(endpoint.workers(), done);
}
