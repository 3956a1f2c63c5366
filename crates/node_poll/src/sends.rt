//! Step 6 of a poll: what is ready or due is sent.
ghost use Rattle.node_steps.specs.Steps.{StepsSent};
ghost use Rattle.node_steps.specs.Changes.{◌⟶◌};
ghost use Rattle.node_steps.specs.Handed.{timed_of};
ghost use Rattle.node_steps.specs.Leaves.{LeavesServing};
ghost use Rattle.std.specs.Prelude.{◌≡◌, ◌<◌, [], true, false, length, None, Some, IfOk, OnErr};
ghost use Rattle.node_steps.specs.Notes.{MakesSent, SendsNone};
ghost use Rattle.rpc_laws.specs.Pacing.{line};
ghost use Rattle.rpc_laws.specs.PollOrder.{Sends};
ghost use Rattle.memory_count.specs.Faults.{HasCause, HasRisen};
ghost use Rattle.rpc_outside.specs.Linking.{NoneComes};
ghost use Rattle.rpc_outside.specs.declared.link.Taken.TheVariants.{Busy, Whole};

use endpoint_node::Node;
use node_steps::Sending;
use rpc_base::{Event, HEAD_BYTES, Who};
use rpc_outside::{Failed, Link, Recorder, Taken};

// Sends the front of the queue, where it lies. What the link answered is told: where it was
// busy, or failed, the packet stays in front. None comes where nothing that is queued may be
// sent yet.
fn send_front<L: Link, R: Recorder>(
    node: &mut Node,
    link: &mut L,
    rec: &mut R,
) -> Result<Option<Taken>, Failed>
    ensures sent { IfOk result (λ took. took ≡ Some Whole → MakesSent R.log L.sent Sends
        (timed_of node.old) (timed_of node.new) rec.old rec.new link.old link.new ×
        (L.busies link.new ≡ L.busies link.old)) }
    ensures busy { IfOk result (λ took. took ≡ Some Busy → SendsNone L.sent
        (timed_of node.old) (timed_of node.new) rec.old rec.new link.old link.new
        × HasRisen (L.busies link.old) (L.busies link.new)) }
    ensures over { IfOk result (λ took. took ≡ None
        → (line node.new.clock node.new.lists.queued ≡ []) × SendsNone L.sent
        (timed_of node.old) (timed_of node.new) rec.old rec.new link.old link.new
        × (L.busies link.new ≡ L.busies link.old)) }
    ensures fault { OnErr result (SendsNone L.sent (timed_of node.old) (timed_of node.new)
        rec.old rec.new link.old link.new × (L.busies link.new ≡ L.busies link.old)) }
    ensures fewer { IfOk result (λ took. took ≡ Some Whole →
        length node.new.lists.queued < length node.old.lists.queued) }
    ensures rest { LeavesServing node.old node.new }
    ensures lists { NoneComes L.waiting L.received link.old link.new }
    ensures cause { HasCause (L.faults link.old) (L.faults link.new) result }
{
    let mut head = [0u8; HEAD_BYTES];
    let Some(packet) = node.store.front(node.clock, &mut head) else {
        return Ok(None);
    };
    let entry = packet.entry;
    match link.send(entry.peer, &head, packet.body)? {
        Taken::Busy => Ok(Some(Taken::Busy)),
        Taken::Whole => {
            let event = Event::Sent {
                peer: entry.peer,
                owner: entry.owner,
                number: entry.number,
            };
            rec.note(Who::Node(node.me), event, &head, packet.body);
            node.store.sent(node.clock);
            Ok(Some(Taken::Whole))
        }
    }
}

// What is ready is sent, the oldest first, and then what is due by now, until none of it is
// left, or the link is busy or fails.
fn send_ready<L: Link, R: Recorder>(
    node: &mut Node,
    link: &mut L,
    rec: &mut R,
) -> Result<Sending, Failed>
    ensures { StepsSent R.log L.Link result (node.old ⟶ node.new) (rec.old ⟶ rec.new)
        (link.old ⟶ link.new) }
{
    let before = node.store.queued();
    'packets: while let Some(taken) = send_front(node, link, rec)? {
        match taken {
            Taken::Whole => {}
            Taken::Busy => {
                let sent = before - node.store.queued();
                return Ok(Sending { sent, busy: true });
            }
        }
    }
    let sent = before - node.store.queued();
    Ok(Sending { sent, busy: false })
}

/// Step 6 of a poll: what is ready is sent, the oldest first, and then what is due by now,
/// until none of it is left or the link is busy or fails. What wasn't sent stays queued in its
/// order. Then the link hands on what it kept back.
pub fn send_all<L: Link, R: Recorder>(
    node: &mut Node,
    link: &mut L,
    rec: &mut R,
) -> Result<Sending, Failed>
    ensures { StepsSent R.log L.Link result (node.old ⟶ node.new) (rec.old ⟶ rec.new)
        (link.old ⟶ link.new) }
{
    let sent = send_ready(node, link, rec);
    link.flush();
    sent
}
