//! The end of a server session: the queued replies to its requests are taken out, slot by slot, and
//! then its buffers leave the pool.
ghost use Rattle.node_steps.specs.Steps.{FlushesOne, IsFlushed, StepsReplies, StepsControl};
ghost use Rattle.node_steps.specs.Changes.{◌⟶◌};
ghost use Rattle.std.specs.Prelude.{◌≡◌, ◌<◌, false, length, slice_get, true, IfSome};
ghost use Rattle.node_steps.specs.Ends.{LeavesSessions, ending, flushing_slot, flushing_slots};
ghost use Rattle.node_steps.specs.Ends.{leaving};
ghost use Rattle.node_steps.specs.Timers.{Notes, flushing};
ghost use Rattle.rpc_laws.specs.Queues.{is_reply};
ghost use Rattle.session_store.specs.Changes.{IsDrained};

use endpoint_node::Node;
use rpc_base::{Event, Owner, Who};
use rpc_outside::Recorder;

// The queued reply of least number of an owner is taken out. The result tells whether there was
// one.
fn flush_reply<R: Recorder>(node: &mut Node, owner: &Owner, rec: &mut R) -> bool
    requires reply { is_reply owner.now ≡ true }
    ensures flush { FlushesOne R.log owner.now result (node.old ⟶ node.new)
        (rec.old ⟶ rec.new) }
    ensures rest { LeavesSessions node.old node.new }
{
    let Owner::Reply { session, request } = owner else {
        unreachable!()
    };
    let Some(entry) = node.store.flush_reply(*session, *request) else {
        return false;
    };
    let event = Event::Flushed {
        owner: entry.owner,
        number: entry.number,
    };
    rec.note(Who::Node(node.me), event, &[], &[]);
    true
}

// The queued replies of an owner are taken out, in ascending number.
fn flush_replies<R: Recorder>(node: &mut Node, owner: &Owner, rec: &mut R)
    requires reply { is_reply owner.now ≡ true }
    ensures step { StepsReplies R.log (Notes (flushing owner.now)) (node.old ⟶ node.new)
        (rec.old ⟶ rec.new) }
    ensures idle { IsFlushed owner.now node.new.lists.queued }
{
    'packets: while flush_reply(node, owner, rec) {}
}

// The queued replies to the newest request of a slot of the server session at place `i` are
// taken out.
fn flush_slot<R: Recorder>(node: &mut Node, i: usize, slot: u8, rec: &mut R)
    requires known { i < length node.old.lists.servers }
    requires slot { slot < 8 }
    ensures { StepsReplies R.log (Notes (flushing_slot i slot)) (node.old ⟶ node.new)
        (rec.old ⟶ rec.new) }
{
    let Some(owner) = node.store.owner_in_slot(i, slot) else {
        return;
    };
    flush_replies(node, &owner, rec);
}

// Those of all its slots are, slot by slot.
fn flush_slots<R: Recorder>(node: &mut Node, i: usize, rec: &mut R)
    requires known { i < length node.old.lists.servers }
    ensures step { StepsReplies R.log (Notes (flushing_slots i 8)) (node.old ⟶ node.new)
        (rec.old ⟶ rec.new) }
    ensures drained { IfSome (slice_get node.new.lists.servers i)
        (IsDrained node.new.lists.queued) }
{
    node.sound();
    let mut slot = 0;
    'slots: while slot < 8 {
        flush_slot(node, i, slot, rec);
        slot += 1;
    }
}

// The server session at place `i` leaves, to none of whose requests a reply is queued.
fn remove_session<R: Recorder>(node: &mut Node, i: usize, rec: &mut R)
    requires known { i < length node.old.lists.servers }
    requires drained { IfSome (slice_get node.old.lists.servers i)
        (IsDrained node.old.lists.queued) }
    ensures step { StepsControl R.log (Notes (leaving i)) (node.old ⟶ node.new)
        (rec.old ⟶ rec.new) }
    ensures fewer { length node.new.lists.servers < length node.old.lists.servers }
{
    let end = node.store.end_of_server(i);
    node.store.end_server(i);
    let event = Event::Ended {
        session: end.session,
    };
    rec.note(Who::Node(node.me), event, &[], &[]);
}

// The server session at place `i` ends: first the queued replies to its requests are taken out.
pub(crate) fn end_session<R: Recorder>(node: &mut Node, i: usize, rec: &mut R)
    requires known { i < length node.old.lists.servers }
    ensures step { StepsControl R.log (Notes (ending i)) (node.old ⟶ node.new)
        (rec.old ⟶ rec.new) }
    ensures fewer { length node.new.lists.servers < length node.old.lists.servers }
{
    flush_slots(node, i, rec);
    remove_session(node, i, rec);
}
