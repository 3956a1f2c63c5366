//! What a control packet does at a node: its row of the control rule is found and done.
ghost use Rattle.node_steps.specs.Steps.{StepsControl};
ghost use Rattle.node_steps.specs.Changes.{◌⟶◌};
ghost use Rattle.std.specs.Prelude.{◌≡◌, Bool, IfSome};
ghost use Rattle.node_steps.specs.ControlRows.{Controls};
ghost use Rattle.packet_header.specs.Header.{ControlInRange};
ghost use Rattle.rpc_laws.specs.ControlTable.{control_reply, control_row};
ghost use Rattle.session_mgmt.specs.Control.{HasCause, found_in, starved_if};

use crate::control::replies::{close_session, connect_session, fail_session, own_end};
use crate::control::requests::{accept_session, decline, end_named, other_end, place_of_named};
use endpoint_node::Node;
use memory_count::Memory;
use packet_header::ControlHeader;
use rpc_base::Peer;
use rpc_laws::ControlRow;
use rpc_outside::Recorder;
use session_mgmt::{Found, control_reply, control_row};

// What the node has of the sessions that a control packet names.
fn found(node: &Node, peer: Peer, head: &ControlHeader) -> Found
    ensures { result ≡ found_in peer head.now node.now.lists }
{
    Found {
        end: other_end(node, peer, head.client, head.from_life),
        is_named: place_of_named(node, peer, head).is_some(),
        own: own_end(node, head.client),
        life: node.life,
        known: node.known.of(peer),
        numbers: node.server_numbers,
        shares: node.shares(),
        ring: node.rx.size(),
    }
}

// What the row of a control packet says is done. The result is the row: `Starves` in place of
// `Accepts` where there is no memory for the session.
fn act<R: Recorder>(
    node: &mut Node,
    memory: &mut Memory,
    row: ControlRow,
    peer: Peer,
    head: &ControlHeader,
    rec: &mut R,
) -> ControlRow
    requires row { (lacks : Bool) → control_row lacks peer head.now node.old.lists
        ≡ starved_if lacks row }
    requires cause { HasCause row head.now (found_in peer head.now node.old.lists) }
    requires in_range { ControlInRange head.now }
    ensures { StepsControl R.log
        (Controls peer head.now (control_reply node.old.lists.life head.now result)
        (memory.old ⟶ memory.new)) (node.old ⟶ node.new) (rec.old ⟶ rec.new) }
{
    node.sound();
    match row {
        ControlRow::Ignores => row,
        ControlRow::Confirms { .. } => row,
        ControlRow::Declines => {
            decline(node, peer, head, rec);
            row
        }
        ControlRow::Starves => unreachable!(),
        ControlRow::Accepts { .. } => accept_session(node, memory, peer, head, rec),
        ControlRow::Ends => {
            end_named(node, peer, head, rec);
            row
        }
        ControlRow::Misses => row,
        ControlRow::Connects { server } => {
            connect_session(node, head.client, server, head.from_life, rec);
            row
        }
        ControlRow::Disowns => row,
        ControlRow::Fails => {
            fail_session(node, head.client, rec);
            row
        }
        ControlRow::Closes => {
            close_session(node, head.client, rec);
            row
        }
    }
}

// A control packet of a peer is handled. The result is the packet that answers it, where there
// is one.
pub(crate) fn on_control<R: Recorder>(
    node: &mut Node,
    memory: &mut Memory,
    peer: Peer,
    head: &ControlHeader,
    rec: &mut R,
) -> Option<ControlHeader>
    requires in_range { ControlInRange head.now }
    ensures step { StepsControl R.log (Controls peer head.now result (memory.old ⟶ memory.new))
        (node.old ⟶ node.new) (rec.old ⟶ rec.new) }
    ensures in_range { IfSome result (λ r. ControlInRange r) }
{
    let own = node.life;
    let found = found(node, peer, head);
    let row = control_row(peer, head, &found);
    let done = act(node, memory, row, peer, head, rec);
    control_reply(own, head, &done)
}
