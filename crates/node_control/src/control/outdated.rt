//! A connect request ends the server sessions of older lives of its sender's node.
ghost use Rattle.node_steps.specs.Steps.{StepsControl};
ghost use Rattle.node_steps.specs.Changes.{◌⟶◌};
ghost use Rattle.std.specs.Prelude.{◌≡◌, ◌<◌, length, slice_get, IfSome, None};
ghost use Rattle.rpc_laws.specs.ControlSteps.{EndsAllOutdated};
ghost use Rattle.rpc_laws.specs.ControlTable.{outdated};

use crate::control::removal::end_session;
use endpoint_node::Node;
use packet_header::{ControlHeader, ControlKind};
use rpc_base::Peer;
use rpc_outside::Recorder;

// Where the first server session stands that a packet outdates.
fn place_of_outdated(node: &Node, peer: Peer, head: &ControlHeader) -> Option<usize>
    ensures found { IfSome result (λ i. (i < length node.now.lists.servers)
        × (outdated peer head.now node.now.lists
        ≡ slice_get node.now.lists.servers i)) }
    ensures missing { result ≡ None → outdated peer head.now node.now.lists ≡ None }
{
    let ControlKind::ConnectRequest = head.kind else {
        return None;
    };
    if head.from_life.0 < node.known.of(peer).0 {
        return None;
    }
    node.store.place_of_older(peer, head.from_life)
}

// The sessions that a packet outdates end, one after another.
pub(crate) fn end_outdated<R: Recorder>(
    node: &mut Node,
    peer: Peer,
    head: &ControlHeader,
    rec: &mut R,
)
    ensures { StepsControl R.log (EndsAllOutdated peer head.now) (node.old ⟶ node.new)
        (rec.old ⟶ rec.new) }
{
    'sessions: while let Some(i) = place_of_outdated(node, peer, head) {
        end_session(node, i, rec);
    }
}
