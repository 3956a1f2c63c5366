//! A call is rolled back, and a session breaks: queued packets are taken out, the session changes,
//! and what happened is noted.
ghost use Rattle.node_steps.specs.Wants.{CanRoll, CanBreak};
ghost use Rattle.node_steps.specs.Steps.{LeavesLost, IsFlushed, FlushesOne, StepsFlushed};
ghost use Rattle.node_steps.specs.Steps.{StepsEnds, Steps};
ghost use Rattle.node_steps.specs.Changes.{◌⟶◌};
ghost use Rattle.node_steps.specs.Leaves.{LeavesServing};
ghost use Rattle.std.specs.Prelude.{◌≡◌, ◌<◌, [], length, slice_get};
ghost use Rattle.node_steps.specs.Timers.{HasLost, Notes, breaking, breaking_off};
ghost use Rattle.node_steps.specs.Timers.{flushing, flushing_all, rolling, rolling_back};
ghost use Rattle.rpc_base.specs.declared.owner.Owner.TheVariants.{Ask};
ghost use Rattle.session_store.specs.Changes.{IsConnected, IsIdle};

use client_core::Active;
use endpoint_node::{Continuation, Node};
use rpc_base::{Event, NodeId, RequestNo, SESSION_NUMBERS, SessionNo, Who};
use rpc_outside::Recorder;
use session_store::Store;

// Session `i`, which is connected, loses its peer, and its calls end, in the order of their
// numbers. No packet of it is queued.
fn lose_session<K: Continuation, R: Recorder>(
    store: &mut Store,
    me: NodeId,
    i: usize,
    k: &mut K,
    rec: &mut R,
)
    requires known { i < length store.old.clients }
    requires numbered { i < SESSION_NUMBERS }
    requires connected { IsConnected (slice_get store.old.clients i) }
    requires idle { IsIdle i store.old.queued }
    ensures lost { HasLost R.log K.given me i [] (store.old.clients ⟶ store.new.clients)
        (rec.old ⟶ rec.new) (k.old ⟶ k.new) }
    ensures rest { LeavesLost K.given (store.old ⟶ store.new) (k.old ⟶ k.new) }
{
    store.lose_peer(i);
    let event = Event::Broken {
        session: SessionNo(i as u16),
    };
    rec.note(Who::Node(me), event, &[], &[]);
    'calls: while let Some(done) = store.lose(i) {
        let ended = Event::DonePeerLost { call: done.call };
        rec.note(Who::Node(me), ended, &[], &[]);
        k.done(done);
    }
}

// The queued packet of least number of a request of session `i` is taken out. The result tells
// whether there was one.
fn flush_next<R: Recorder>(node: &mut Node, i: usize, request: RequestNo, rec: &mut R) -> bool
    requires known { i < length node.old.lists.clients }
    ensures flush { FlushesOne R.log (Ask i request) result (node.old ⟶ node.new)
        (rec.old ⟶ rec.new) }
    ensures clients { node.new.lists.clients ≡ node.old.lists.clients }
    ensures rest { LeavesServing node.old node.new }
{
    let Some(entry) = node.store.flush(i, request) else {
        return false;
    };
    let event = Event::Flushed {
        owner: entry.owner,
        number: entry.number,
    };
    rec.note(Who::Node(node.me), event, &[], &[]);
    true
}

// The queued packets of a request of session `i` are taken out, in ascending number.
fn flush_call<R: Recorder>(node: &mut Node, i: usize, request: RequestNo, rec: &mut R)
    requires known { i < length node.old.lists.clients }
    ensures { StepsFlushed R.log (Notes (flushing (Ask i request))) (IsFlushed (Ask i request))
        (node.old ⟶ node.new) (rec.old ⟶ rec.new) }
{
    'packets: while flush_next(node, i, request, rec) {}
}

// An active call of session `i` is rolled back, of which no packet is queued.
fn roll_idle<R: Recorder>(node: &mut Node, i: usize, active: &Active, rec: &mut R)
    requires can { CanRoll i active.now node.old }
    requires idle { IsFlushed (Ask i active.now.request) node.old.lists.queued }
    ensures { Steps R.log (Notes (rolling active.now)) (node.old ⟶ node.new)
        (rec.old ⟶ rec.new) }
{
    node.store.roll(i, active.call);
    let event = Event::Rolled {
        call: active.call,
        posted: active.posted,
        got: active.got,
    };
    rec.note(Who::Node(node.me), event, &[], &[]);
}

/// An active call of session `i` is rolled back: its queued packets are taken out, in ascending
/// number, and its unanswered ones are to be posted again.
pub(crate) fn roll<R: Recorder>(node: &mut Node, i: usize, active: &Active, rec: &mut R)
    requires { CanRoll i active.now node.old }
    ensures { Steps R.log (Notes (rolling_back i active.now)) (node.old ⟶ node.new)
        (rec.old ⟶ rec.new) }
{
    flush_call(node, i, active.request, rec);
    roll_idle(node, i, active, rec);
}

// The queued packets of all calls of session `i` are taken out, call by call.
fn flush_session<R: Recorder>(node: &mut Node, i: usize, rec: &mut R)
    requires known { i < length node.old.lists.clients }
    ensures { StepsFlushed R.log (Notes (flushing_all i)) (IsIdle i) (node.old ⟶ node.new)
        (rec.old ⟶ rec.new) }
{
    let mut after = None;
    'calls: while let Some(active) = node.store.active(i, after) {
        flush_call(node, i, active.request, rec);
        after = Some(active.call);
    }
}

// Session `i`, which is connected, loses its peer, and its calls end. No packet of it is
// queued.
fn break_idle<K: Continuation, R: Recorder>(node: &mut Node, i: usize, k: &mut K, rec: &mut R)
    requires can { CanBreak i node.old }
    requires idle { IsIdle i node.old.lists.queued }
    ensures { StepsEnds R.log K.given (Notes (breaking i)) (node.old ⟶ node.new)
        (rec.old ⟶ rec.new) (k.old ⟶ k.new) }
{
    lose_session(&mut node.store, node.me, i, k, rec);
}

/// Session `i`, which is connected, breaks: the queued packets of all its calls are taken out,
/// and then its calls end, in the order of their numbers.
pub(crate) fn break_session<K: Continuation, R: Recorder>(
    node: &mut Node,
    i: usize,
    k: &mut K,
    rec: &mut R,
)
    requires { CanBreak i node.old }
    ensures { StepsEnds R.log K.given (Notes (breaking_off i)) (node.old ⟶ node.new)
        (rec.old ⟶ rec.new) (k.old ⟶ k.new) }
{
    flush_session(node, i, rec);
    break_idle(node, i, k, rec);
}
