//! What the client sessions begin and post.
ghost use Rattle.node_steps.specs.Wants.{HasPace};
ghost use Rattle.node_steps.specs.Steps.{Steps};
ghost use Rattle.node_steps.specs.Changes.{◌⟶◌};
ghost use Rattle.node_steps.specs.Handed.{timed_of};
ghost use Rattle.node_steps.specs.Leaves.{LeavesServing};
ghost use Rattle.std.specs.Prelude.{◌≡◌, ◌<◌, ◌≤◌, option_map, true, vec_capacity};
ghost use Rattle.std.specs.List.{find};
ghost use Rattle.rpc_base.specs.Tables.{at_first};
ghost use Rattle.node_steps.specs.Measures.{free_at, waiting_at};
ghost use Rattle.node_steps.specs.Notes.{NotesOne};
ghost use Rattle.rpc_laws.specs.Pacing.{delayed, due_at, is_paced};
ghost use Rattle.rpc_laws.specs.PollOrder.{PostsAll, Serves};
ghost use Rattle.session_store.specs.Effects.{request_in};
ghost use Rattle.rpc_laws.specs.Posting.{next_begun, next_posted};
ghost use Rattle.rpc_laws.specs.Steps.{NotesAll};

use endpoint_node::Node;
use rpc_base::{Event, MOST_DATAGRAM_BYTES, Owner, RequestNo, Who};
use rpc_laws::Pace;
use rpc_outside::Recorder;

// A rate is in bytes per millisecond, and times are in microseconds.
const MICROSECONDS: u64 = 1000;

// The request of a packet of a call, or of a reply.
fn request_of(owner: &Owner) -> RequestNo
    ensures { result ≡ request_in owner.now }
{
    match owner {
        Owner::Ask { request, .. } => *request,
        Owner::Reply { request, .. } => *request,
        Owner::Control => RequestNo::of(0, 0),
    }
}

// When the next packet of session `i` is due at this clock, in microseconds, where the session has
// a rate.
fn due_of(paces: &Vec<Pace>, i: usize, clock: u64) -> Option<u64>
    requires { HasPace i paces.now.items }
    ensures { result ≡ option_map (due_at clock) (find (is_paced i) paces.now.items) }
{
    let pace = &paces[i];
    if pace.rate == 0 {
        return None;
    }
    Some(clock.max(pace.next))
}

// A packet of session `i` was posted, in a datagram of `size` bytes: where the session has a rate,
// its next packet is due so much later.
fn delay(paces: &mut Vec<Pace>, i: usize, clock: u64, size: u64)
    requires pace { HasPace i paces.old.items }
    requires size { size ≤ MOST_DATAGRAM_BYTES }
    ensures delays { paces.new.items ≡ at_first (is_paced i) (delayed clock size) paces.old.items }
    ensures room { vec_capacity paces.new ≡ vec_capacity paces.old }
{
    let pace = &mut paces[i];
    if pace.rate == 0 {
        return;
    }
    let due = clock.max(pace.next);
    pace.next = due.saturating_add((size * MICROSECONDS).div_ceil(u64::from(pace.rate)));
}

// Session `i` posts its next packet. The result tells whether it had one.
fn post_next<R: Recorder>(node: &mut Node, i: usize, rec: &mut R) -> bool
    ensures notes { NotesOne R.log (next_posted i) result (timed_of node.old)
        (timed_of node.new) rec.old rec.new }
    ensures fewer { result ≡ true →
        free_at i node.new.lists.clients < free_at i node.old.lists.clients }
    ensures rest { LeavesServing node.old node.new }
{
    if i >= node.store.clients() {
        return false;
    }
    let due = due_of(&node.paces, i, node.clock);
    let Some(entry) = node.store.post(i, due) else {
        return false;
    };
    let request = request_of(&entry.owner);
    let size = node.store.packet_size(i, request, entry.number);
    delay(&mut node.paces, i, node.clock, size);
    let event = Event::Posted {
        owner: entry.owner,
        number: entry.number,
    };
    rec.note(Who::Node(node.me), event, &[], &[]);
    true
}

// The next call of session `i` begins. The result tells whether it had one.
fn begin_next<R: Recorder>(node: &mut Node, i: usize, rec: &mut R) -> bool
    ensures notes { NotesOne R.log (next_begun i) result (timed_of node.old)
        (timed_of node.new) rec.old rec.new }
    ensures fewer { result ≡ true →
        waiting_at i node.new.lists.clients < waiting_at i node.old.lists.clients }
    ensures rest { LeavesServing node.old node.new }
{
    if i >= node.store.clients() {
        return false;
    }
    let Some(next) = node.store.begin(i) else {
        return false;
    };
    let event = Event::Begun {
        call: next.0,
        request: next.1,
    };
    rec.note(Who::Node(node.me), event, &[], &[]);
    true
}

// Session `i` posts until it has nothing to post.
fn post_all<R: Recorder>(node: &mut Node, i: usize, rec: &mut R)
    ensures { Steps R.log (NotesAll (next_posted i)) (node.old ⟶ node.new) (rec.old ⟶ rec.new) }
{
    'packets: while post_next(node, i, rec) {}
}

// The waiting calls of session `i` begin, as long as a slot is free.
fn begin_all<R: Recorder>(node: &mut Node, i: usize, rec: &mut R)
    ensures { Steps R.log (NotesAll (next_begun i)) (node.old ⟶ node.new) (rec.old ⟶ rec.new) }
{
    'calls: while begin_next(node, i, rec) {}
}

// Session `i` begins its waiting calls, and then posts its packets.
fn post_session<R: Recorder>(node: &mut Node, i: usize, rec: &mut R)
    ensures { Steps R.log (Serves i) (node.old ⟶ node.new) (rec.old ⟶ rec.new) }
{
    begin_all(node, i, rec);
    post_all(node, i, rec);
}

/// Step 5 of a poll: the client sessions are visited in the order of their numbers. Each begins
/// its waiting calls, and then posts its packets. One without calls has nothing to do, and is
/// passed over.
pub fn post_sessions<R: Recorder>(node: &mut Node, rec: &mut R)
    ensures { Steps R.log PostsAll (node.old ⟶ node.new) (rec.old ⟶ rec.new) }
{
    let count = node.store.clients();
    let mut from = 0;
    'sessions: while let Some(i) = node.next_caller(from, count) {
        post_session(node, i, rec);
        node.forget_idle(i);
        from = i + 1;
    }
}
