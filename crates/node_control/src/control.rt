//! Step 2 of a poll: the control packets of the inbox are handled, and answered.
ghost use Rattle.node_steps.specs.Steps.{LeavesControl, StepsHeard};
ghost use Rattle.node_steps.specs.Changes.{◌⟶◌};
ghost use Rattle.std.specs.Prelude.{◌≡◌, ◌≢◌, ◌≤◌, [], drop, length, IfSome, Some};
ghost use Rattle.node_steps.specs.Handed.{knowing, timed_of};
ghost use Rattle.node_steps.specs.Inboxes.{IsFront};
ghost use Rattle.node_steps.specs.Control.{Handles, told_of};
ghost use Rattle.node_steps.specs.Notes.{Makes};
ghost use Rattle.packet_header.specs.Header.{ControlInRange};
ghost use Rattle.rpc_laws.specs.ControlSteps.{Hears, HearsAll};
ghost use Rattle.rpc_laws.specs.Deliveries.{inbox_room};
ghost use Rattle.rpc_laws.specs.Lives.{life_in, raised_by};

mod outdated;
mod removal;
mod replies;
mod requests;
mod rows;

use crate::control::outdated::end_outdated;
use crate::control::rows::on_control;
use crate::link::speak;
use endpoint_node::Node;
use memory_count::Memory;
use node_steps::{Heard, Listening};
use packet_header::{ControlHeader, ControlKind};
use rpc_base::{Event, Peer, Who};
use rpc_outside::{Failed, Link, Recorder};

// What is told of one packet whose answer was handed to the link.
fn told_of(went: Result<bool, Failed>) -> Listening
    ensures { result ≡ told_of went }
{
    match went {
        Ok(taken) => {
            Listening {
                heard: 1,
                sent: u32::from(taken),
                failed: false,
            }
        }
        Err(_) => {
            Listening {
                heard: 1,
                sent: 0,
                failed: true,
            }
        }
    }
}

// The packet in front of the inbox, which is given, is taken out. The sessions that it outdates
// end, and then it is handled by the control table. The result is the packet that answers it,
// where there is one.
fn handle_control<R: Recorder>(
    node: &mut Node,
    memory: &mut Memory,
    packet: &Heard,
    rec: &mut R,
) -> Option<ControlHeader>
    requires front { IsFront node.old.lists.inbox packet.now }
    requires in_range { ControlInRange packet.now.head }
    ensures handles { Makes R.log (Handles packet.now.peer packet.now.head result
        (memory.old ⟶ memory.new)) (timed_of node.old) (timed_of node.new) rec.old rec.new }
    ensures in_range { IfSome result (λ r. ControlInRange r) }
    ensures inbox { node.new.lists.inbox ≡ drop 1 node.old.lists.inbox }
    ensures rest { LeavesControl node.old node.new }
{
    rec.note(Who::Node(node.me), Event::Heard, &[], &[]);
    node.inbox.drop_front();
    end_outdated(node, packet.peer, &packet.head, rec);
    on_control(node, memory, packet.peer, &packet.head, rec)
}

// The life that a connect reply to a peer goes to comes to be known.
fn keep_life(node: &mut Node, peer: Peer, answer: &ControlHeader)
    ensures { node.new ≡ knowing (raised_by peer (life_in (Some answer.now))
        node.old.lists.known) node.old }
{
    let ControlKind::ConnectReply = answer.kind else {
        return;
    };
    if let Some(life) = answer.to_life {
        node.known.raise(peer, life);
    }
}

// The packet in front of the inbox is handled, and its answer is handed to the link at once.
fn hear_control<L: Link, R: Recorder>(
    node: &mut Node,
    memory: &mut Memory,
    link: &mut L,
    rec: &mut R,
) -> Listening
    requires some { node.old.lists.inbox ≢ [] }
    ensures step { StepsHeard R.log L.Link Hears result (node.old ⟶ node.new)
        (rec.old ⟶ rec.new) (link.old ⟶ link.new) (memory.old ⟶ memory.new) }
    ensures one { result.heard ≡ 1 }
    ensures few { result.sent ≤ 1 }
    ensures inbox { node.new.lists.inbox ≡ drop 1 node.old.lists.inbox }
{
    let Some(packet) = node.inbox.front() else {
        unreachable!()
    };
    match handle_control(node, memory, &packet, rec) {
        None => {
            Listening {
                heard: 1,
                sent: 0,
                failed: false,
            }
        }
        Some(answer) => {
            let went = speak(node.me, packet.peer, &answer, link, rec);
            keep_life(node, packet.peer, &answer);
            told_of(went)
        }
    }
}

/// Step 2 of a poll: the control packets of the inbox are handled in order of arrival. Each
/// answer is handed to the link at once: it is noted as Sent where the link took it, and
/// otherwise as Unsent. A busy link, or a fault of the link, doesn't stop it.
pub fn hear_all<L: Link, R: Recorder>(
    node: &mut Node,
    memory: &mut Memory,
    link: &mut L,
    rec: &mut R,
) -> Listening
    ensures step { StepsHeard R.log L.Link HearsAll result (node.old ⟶ node.new)
        (rec.old ⟶ rec.new) (link.old ⟶ link.new) (memory.old ⟶ memory.new) }
    ensures heard { result.heard ≡ length node.old.lists.inbox }
    ensures few { result.heard ≤ inbox_room }
    ensures sent { result.sent ≤ result.heard }
    ensures inbox { node.new.lists.inbox ≡ [] }
{
    let count = node.inbox.len();
    let mut told = Listening {
        heard: 0,
        sent: 0,
        failed: false,
    };
    'packets: while told.heard < count {
        let one = hear_control(node, memory, link, rec);
        told.heard += one.heard;
        told.sent += one.sent;
        told.failed |= one.failed;
    }
    told
}
