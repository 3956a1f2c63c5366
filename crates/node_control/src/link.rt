//! Control packets are handed to the link at once, and are never queued.
ghost use Rattle.std.specs.Prelude.{◌≡◌, true, false, IfOk, OnErr};
ghost use Rattle.node_steps.specs.Changes.{◌⟶◌};
ghost use Rattle.node_steps.specs.ControlRows.{Spoke, was_taken};
ghost use Rattle.packet_header.specs.Header.{ControlInRange};
ghost use Rattle.memory_count.specs.Faults.{HasCause, HasRisen};
ghost use Rattle.rpc_outside.specs.Linking.{NoneComes};

use packet_header::{ControlHeader, Packet, encode};
use rpc_base::{Event, HEAD_BYTES, NodeId, Owner, Peer, Who};
use rpc_outside::{Failed, Link, Recorder, Taken};

/// Hands a control packet to the link. It is noted as Sent where the link took it, and otherwise as
/// Unsent. The result tells whether the link took it.
pub(crate) fn speak<L: Link, R: Recorder>(
    me: NodeId,
    peer: Peer,
    head: &ControlHeader,
    link: &mut L,
    rec: &mut R,
) -> Result<bool, Failed>
    requires in_range { ControlInRange head.now }
    ensures spoke { Spoke R.log L.sent me peer head.now (was_taken result) (rec.old ⟶ rec.new)
        (link.old ⟶ link.new) }
    ensures busy { IfOk result (λ went. went ≡ false →
        HasRisen (L.busies link.old) (L.busies link.new)) }
    ensures went { IfOk result (λ went. went ≡ true → L.busies link.new ≡ L.busies link.old) }
    ensures fault { OnErr result (L.busies link.new ≡ L.busies link.old) }
    ensures lists { NoneComes L.waiting L.received link.old link.new }
    ensures cause { HasCause (L.faults link.old) (L.faults link.new) result }
{
    let mut bytes = [0u8; HEAD_BYTES];
    encode(&Packet::Control(*head), &mut bytes);
    match link.send(peer, &bytes, &[]) {
        Ok(Taken::Whole) => {
            let event = Event::Sent {
                peer,
                owner: Owner::Control,
                number: 0,
            };
            rec.note(Who::Node(me), event, &bytes, &[]);
            Ok(true)
        }
        Ok(Taken::Busy) => {
            rec.note(Who::Node(me), Event::Unsent { peer }, &bytes, &[]);
            Ok(false)
        }
        Err(fault) => {
            rec.note(Who::Node(me), Event::Unsent { peer }, &bytes, &[]);
            Err(fault)
        }
    }
}
