//! The begin of a poll, and its end.
ghost use Rattle.node_steps.specs.Steps.{Steps};
ghost use Rattle.node_steps.specs.Changes.{◌⟶◌};
ghost use Rattle.node_steps.specs.Handed.{holding, timed_of};
ghost use Rattle.std.specs.Prelude.{◌≡◌, max};
ghost use Rattle.rpc_laws.specs.PollOrder.{Closes, raised};

use endpoint_node::Node;
use rpc_base::{Event, Who};
use rpc_outside::Recorder;

/// The clock of the node at a poll at the moment `now`, in microseconds. It doesn't fall.
pub fn raise_clock(node: &mut Node, now: u64)
    ensures { node.new ≡ holding node.old.handed (raised now (timed_of node.old)) }
{
    node.clock = node.clock.max(now);
}

/// Step 7 of a poll: it ends with a Polled, from which on what was due is ready.
pub fn close<R: Recorder>(node: &mut Node, rec: &mut R)
    ensures { Steps R.log Closes (node.old ⟶ node.new) (rec.old ⟶ rec.new) }
{
    let event = Event::Polled { now: node.clock };
    rec.note(Who::Node(node.me), event, &[], &[]);
    node.store.make_ready(node.clock);
}
