//! Laws of endpoints that take turns, of any services, workers, links and recorders.
ghost use Rattle.turn_laws.specs.Endpoints.{CallsAreDeeds, DeliveriesAreDeeds, NewDidNothing};
ghost use Rattle.turn_laws.specs.Endpoints.{PollsAreDeeds, TurnsAreDeeds};
ghost use Rattle.turn_laws.specs.Joining.{EndpointsStay, NewEndpointsJoin};
ghost use Rattle.turn_laws.specs.Pairs.{PairsGoOnWires};
ghost use Rattle.turn_laws.specs.Systems.{SystemsKeepCalls, SystemsRunOverWires, WireRunsKeepCalls};

use endpoint_loop::Continuation;
use rpc_outside::{Link, Recorder, Service};
use worker_crew::Workers;

/// An endpoint that was just made did nothing yet.
pub fn new_endpoints_did_nothing<V: Service, W: Workers>()
    ensures { NewDidNothing V.Service W.Workers }
{}

/// A turn of an endpoint is one deed more, with the datagrams that came in it; and by it a wire run
/// goes on, from any moment in which these are on the wire to this node. What it sent is on the
/// wire then, in that order. The same holds of a poll, and of a delivery.
pub fn turns_are_deeds<V: Service, W: Workers, L: Link, K: Continuation, R: Recorder>()
    ensures turns { TurnsAreDeeds R.log L.Link K.given V.Service W.Workers }
    ensures polls { PollsAreDeeds R.log K.given V.Service W.Workers }
    ensures deliveries { DeliveriesAreDeeds R.log V.Service W.Workers }
{}

/// So is a call by which an application asks, connects, disconnects or sets a rate.
pub fn calls_are_deeds<V: Service, W: Workers, R: Recorder>()
    ensures { CallsAreDeeds R.log V.Service W.Workers }
{}

/// A new endpoint joins a wire run as its next node, and an endpoint whose node stays as it was is
/// that node still.
pub fn endpoints_join_and_stay<V: Service, W: Workers>()
    ensures joins { NewEndpointsJoin V.Service W.Workers }
    ensures stays { EndpointsStay V.Service W.Workers }
{}

/// Two endpoints that each make an end of a session with the other's next number and life, at one
/// moment of a wire run, go on with it by both calls.
pub fn pairs_go_on_wires<V: Service, W: Workers, R: Recorder, X: Service, Y: Workers, P: Recorder>()
    ensures { PairsGoOnWires R.log V.Service W.Workers P.log X.Service Y.Workers }
{}

/// What the endpoints of a system do in their first lives is a wire run, where each datagram that
/// comes was sent before, by the peer that it is said to be from, to this node.
pub fn systems_run_over_wires()
    ensures { SystemsRunOverWires }
{}

/// In such a system each call runs at most once and ends at most once, and one that ends well has
/// the answer of its peer's service to its own bytes. So it is in every wire run.
pub fn systems_keep_calls()
    ensures systems { SystemsKeepCalls }
    ensures wires { WireRunsKeepCalls }
{}
