//! Step 4 of a poll: the timers. Client sessions send their own requests. A call that timed out is
//! rolled back, and one that timed out once too often breaks its session.
ghost use Rattle.node_steps.specs.Wants.{HasActive};
ghost use Rattle.node_steps.specs.Steps.{StepsTimes, StepsEnds};
ghost use Rattle.node_steps.specs.Changes.{◌⟶◌};
ghost use Rattle.node_steps.specs.Handed.{timed_of};
ghost use Rattle.node_steps.specs.Leaves.{LeavesTimed};
ghost use Rattle.std.specs.Prelude.{◌<◌, ◌≤◌};
ghost use Rattle.node_steps.specs.Timers.{LooksAt, calls_at, number_at};
ghost use Rattle.rpc_laws.specs.ControlSteps.{TimesAll, TimesSession};
ghost use Rattle.rpc_laws.specs.GoBackN.{Watches, WatchesSession};
ghost use Rattle.session_store.specs.Ends.{Ascends};

mod retries;
mod rollbacks;

use crate::timers::retries::retry;
use crate::timers::rollbacks::{break_session, roll};
use client_core::Active;
use endpoint_node::{Continuation, Node};
use node_steps::Asking;
use rpc_base::{CallNo, SESSION_NUMBERS};
use rpc_laws::TimerRow;
use rpc_outside::{Link, Recorder};

// Looks at an active call of session `i`.
fn watch_call<K: Continuation, R: Recorder>(
    node: &mut Node,
    timeout: u64,
    i: usize,
    active: &Active,
    k: &mut K,
    rec: &mut R,
)
    requires { HasActive i active.now node.old }
    ensures { StepsEnds R.log K.given (Watches timeout i active.now.call) (node.old ⟶ node.new)
        (rec.old ⟶ rec.new) (k.old ⟶ k.new) }
{
    match node.store.timer(i, active, node.clock, timeout) {
        TimerRow::Waits => {}
        TimerRow::RollsBack => roll(node, i, active, rec),
        TimerRow::Breaks => break_session(node, i, k, rec),
    }
}

// Looks at the first active call of session `i` above `after`, and tells its number.
fn watch_next<K: Continuation, R: Recorder>(
    node: &mut Node,
    timeout: u64,
    i: usize,
    after: Option<CallNo>,
    k: &mut K,
    rec: &mut R,
) -> Option<CallNo>
    ensures looks { LooksAt R.log K.given (number_at after i) (Watches timeout i) result
        (timed_of node.old ⟶ timed_of node.new) (rec.old ⟶ rec.new) (k.old ⟶ k.new) }
    ensures order { Ascends (calls_at i (timed_of node.old)) }
    ensures rest { LeavesTimed K.given node.old node.new k.old k.new }
{
    if i >= node.store.clients() {
        return None;
    }
    let Some(active) = node.store.active(i, after) else {
        return None;
    };
    watch_call(node, timeout, i, &active, k, rec);
    Some(active.call)
}

// Looks at the calls that session `i` has now, in the order of their numbers. Those that wait
// have no timer.
fn watch_calls<K: Continuation, R: Recorder>(
    node: &mut Node,
    timeout: u64,
    i: usize,
    k: &mut K,
    rec: &mut R,
)
    ensures { StepsEnds R.log K.given (WatchesSession timeout i) (node.old ⟶ node.new)
        (rec.old ⟶ rec.new) (k.old ⟶ k.new) }
{
    // Mostly none has timed out, which one look at their clocks tells.
    if i < node.store.clients() && !node.store.has_late(i, node.clock, timeout) {
        return;
    }
    // Their calls stand in the order of their numbers.
    let mut after = None;
    'calls: while let Some(call) = watch_next(node, timeout, i, after, k, rec) {
        after = Some(call);
    }
}

// Looks at session `i`: at its own request, and then at its calls. Where the link failed with
// the request, the calls are looked at all the same.
fn watch_session<L: Link, K: Continuation, R: Recorder>(
    node: &mut Node,
    timeout: u64,
    i: usize,
    link: &mut L,
    k: &mut K,
    rec: &mut R,
) -> Asking
    ensures step { StepsTimes R.log K.given L.Link (TimesSession timeout i) result
        (node.old ⟶ node.new) (rec.old ⟶ rec.new) (k.old ⟶ k.new) (link.old ⟶ link.new) }
    ensures few { result.sent ≤ 1 }
{
    if i >= node.store.clients() {
        return Asking {
            sent: 0,
            failed: false,
        };
    }
    let went = retry(node, timeout, i, link, rec);
    watch_calls(node, timeout, i, k, rec);
    went
}

/// Step 4 of a poll: all client sessions are looked at in the order of their numbers, at the
/// node's clock. One that is opened or closes sends its own request, at first and again each
/// time that a timeout has passed, and gives up where no answer came to the ninth; the request
/// is handed to the link at once. A call that timed out is rolled back, and one that timed out
/// once too often breaks its session, whose calls end. A session with neither a call nor a
/// request is passed over. Where the link failed with a request, the other sessions are looked
/// at all the same.
pub fn watch<L: Link, K: Continuation, R: Recorder>(
    node: &mut Node,
    link: &mut L,
    k: &mut K,
    rec: &mut R,
) -> Asking
    ensures step { StepsTimes R.log K.given L.Link TimesAll result (node.old ⟶ node.new)
        (rec.old ⟶ rec.new) (k.old ⟶ k.new) (link.old ⟶ link.new) }
    ensures few { result.sent ≤ SESSION_NUMBERS }
{
    let timeout = node.limits.timeout;
    let count = node.store.clients();
    let mut from = 0;
    let mut told = Asking {
        sent: 0,
        failed: false,
    };
    'sessions: while let Some(i) = node.next_caller(from, count) {
        let one = watch_session(node, timeout, i, link, k, rec);
        told.sent += one.sent;
        told.failed |= one.failed;
        from = i + 1;
    }
    told
}
