//! Step 3 of a poll: the packets of the receive ring are handled.
ghost use Rattle.node_steps.specs.Fronts.{HasFront, LeavesHandled, CanServe};
ghost use Rattle.node_steps.specs.Changes.{◌⟶◌};
ghost use Rattle.node_steps.specs.Jobs.{staff_change};
ghost use Rattle.rpc_laws.specs.Service.{rules_of};
ghost use Rattle.node_steps.specs.Handed.{timed_of};
ghost use Rattle.std.specs.Prelude.{◌≡◌, ◌≢◌, ◌<◌, ◌≤◌, ◌+◌, ◌==◌, not, [], true, false, drop};
ghost use Rattle.std.specs.Prelude.{length};
ghost use Rattle.node_steps.specs.Packets.{MakesAllHandled, WorksFor};
ghost use Rattle.node_steps.specs.Requests.{service_change};
ghost use Rattle.rpc_laws.specs.PollOrder.{Handles, HandlesAll, NoMoreToHandle};
ghost use Rattle.rpc_laws.specs.Queues.{replies};

mod replies;
mod requests;

use crate::jobs::has_room;
use crate::packets::replies::{drop_front, front_head, hear_reply};
use crate::packets::requests::handle_request;
use endpoint_node::{Continuation, Node};
use memory_count::Memory;
use packet_header::{Kind, MessageHeader};
use rpc_base::{DropReason, MOST_RING};
use rpc_outside::{Recorder, Service};
use worker_crew::Workers;

// Whether a packet is for another life of the node.
fn is_stale(node: &Node, head: &MessageHeader) -> bool
    ensures { result ≡ not (head.now.to_life == node.now.lists.life) }
{
    head.to_life.0 != node.life.0
}

// A turn of step 3 of a poll: handles the packet in front of the receive ring, while fewer
// replies are queued than the ring is long. One for another life is dropped, before anything
// else is looked at. A call that ends goes to the continuation, and a job that a request makes
// to the workers.
fn handle_front<V: Service, W: Workers, K: Continuation, R: Recorder>(
    node: &mut Node,
    memory: &mut Memory,
    service: &mut V,
    workers: &mut W,
    k: &mut K,
    rec: &mut R,
)
    requires front { HasFront V.Service service.old node.old }
    requires works { WorksFor W.answer (rules_of V.Service) }
    ensures handles { MakesAllHandled R.log K.given
        (service_change V.Service (service.old ⟶ service.new))
        (staff_change W.Workers (workers.old ⟶ workers.new)) (Handles V.mode_of)
        (timed_of node.old ⟶ timed_of node.new) (rec.old ⟶ rec.new) (k.old ⟶ k.new)
        (memory.old ⟶ memory.new) }
    ensures ring { node.new.lists.ring ≡ drop 1 node.old.lists.ring }
    ensures rest { LeavesHandled V.Service W.Workers K.given (node.old ⟶ node.new)
        (service.old ⟶ service.new) (workers.old ⟶ workers.new) (k.old ⟶ k.new) }
{
    let Some(head) = front_head(node) else {
        unreachable!()
    };
    if is_stale(node, &head) {
        drop_front(node, DropReason::StaleLife, rec);
        return;
    }
    match head.kind {
        Kind::Request | Kind::Rfr => {
            let Some(parcel) = handle_request(node, memory, service, &head, rec) else {
                return;
            };
            node.sound();
            // Workers that have the jobs of the node aren't full: the node counts them.
            let _given = workers.give(parcel);
        }
        Kind::Cr | Kind::Response => {
            if let Some(done) = hear_reply(node, &head, rec) {
                k.done(done);
            }
        }
    }
}

// Whether a packet can be handled: there is one, and fewer replies are queued than the ring is
// long.
fn can_handle(node: &Node) -> bool
    ensures some { result ≡ true → node.now.lists.ring ≢ [] }
    ensures room { result ≡ true → replies node.now.lists.queued < node.now.lists.room }
    ensures over { result ≡ false → NoMoreToHandle (timed_of node.now) }
{
    !node.rx.is_empty() && has_room(node)
}

/// Step 3 of a poll: the packets of the receive ring are handled in the order of their arrival,
/// while fewer replies are queued than the ring is long. Calls that end go to the continuation,
/// and jobs to the workers, which answer background requests as the service does. The result
/// tells how many packets were handled.
pub fn handle_all<V: Service, W: Workers, K: Continuation, R: Recorder>(
    node: &mut Node,
    memory: &mut Memory,
    service: &mut V,
    workers: &mut W,
    k: &mut K,
    rec: &mut R,
) -> u32
    requires serving { CanServe V.Service service.old node.old }
    requires works { WorksFor W.answer (rules_of V.Service) }
    ensures handles { MakesAllHandled R.log K.given
        (service_change V.Service (service.old ⟶ service.new))
        (staff_change W.Workers (workers.old ⟶ workers.new)) (HandlesAll V.mode_of)
        (timed_of node.old ⟶ timed_of node.new) (rec.old ⟶ rec.new) (k.old ⟶ k.new)
        (memory.old ⟶ memory.new) }
    ensures rest { LeavesHandled V.Service W.Workers K.given (node.old ⟶ node.new)
        (service.old ⟶ service.new) (workers.old ⟶ workers.new) (k.old ⟶ k.new) }
    ensures count { result + length node.new.lists.ring ≡ length node.old.lists.ring }
    ensures few { result ≤ MOST_RING }
{
    let before = node.rx.len();
    'packets: while can_handle(node) {
        handle_front(node, memory, service, workers, k, rec);
    }
    before - node.rx.len()
}
