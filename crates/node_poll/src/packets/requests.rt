//! Step 3 of a poll, for requests: a Request or RFR in front of the receive ring is handled.
ghost use Rattle.node_steps.specs.Changes.{◌⟶◌};
ghost use Rattle.node_steps.specs.Fronts.{ServesFront, AsksInFront};
ghost use Rattle.std.specs.Prelude.{◌≡◌};
ghost use Rattle.rpc_laws.specs.Jobs.{are_full};

use crate::jobs::put_job;
use crate::packets::replies::{body, drop_front};
use endpoint_node::Node;
use memory_count::Memory;
use packet_header::MessageHeader;
use rpc_base::{DropReason, MOST_GIVEN};
use rpc_outside::{Recorder, Service};
use server_core::Step;
use worker_board::Parcel;

// Whether the node's jobs are full.
fn jobs_full(node: &Node) -> bool
    ensures { result ≡ are_full node.now.lists.jobs }
{
    node.limits.jobs as usize <= node.jobs.len() || MOST_GIVEN <= node.given
}

/// Handles the Request or RFR in front of the receive ring, whose header is given, where its
/// bytes lie. What is given out is the job that it made, for a worker.
pub(crate) fn handle_request<V: Service, R: Recorder>(
    node: &mut Node,
    memory: &mut Memory,
    service: &mut V,
    head: &MessageHeader,
    rec: &mut R,
) -> Option<Parcel>
    requires { AsksInFront V.Service head.now service.old node.old }
    ensures { ServesFront R.log V.Service head.now result (node.old ⟶ node.new)
        (rec.old ⟶ rec.new) (service.old ⟶ service.new) (memory.old ⟶ memory.new) }
{
    let full = jobs_full(node);
    let Some(front) = node.rx.front() else {
        unreachable!()
    };
    let Some(i) = node.store.place_of_server(head.session) else {
        drop_front(node, DropReason::NoSession, rec);
        return None;
    };
    if node.store.peer_of_server(i) != front.peer() {
        drop_front(node, DropReason::WrongPeer, rec);
        return None;
    }
    let asked = body(front.bytes());
    let step = node
        .store
        .on_packet(memory, i, service, head, asked, full, node.me, rec);
    node.rx.drop_front();
    match step {
        Step::Took { reply: _ } => None,
        Step::Again { reply: _ } => None,
        Step::Ran { reply: _ } => {
            node.counts.ran = node.counts.ran.saturating_add(1);
            None
        }
        Step::Give(parcel) => {
            node.counts.given = node.counts.given.saturating_add(1);
            node.given += 1;
            put_job(&mut node.jobs, &parcel);
            Some(parcel)
        }
        Step::Dropped(_) => {
            node.counts.dropped = node.counts.dropped.saturating_add(1);
            None
        }
    }
}
