//! A datagram comes in.
ghost use Rattle.node_steps.specs.Steps.{StepsIn, Steps};
ghost use Rattle.node_steps.specs.Changes.{◌⟶◌};
ghost use Rattle.std.specs.Prelude.{◌≡◌, ◌≤◌, true, false, length};
ghost use Rattle.node_steps.specs.Deliveries.{delivered_as, place_for};
ghost use Rattle.node_steps.specs.declared.deliveries.Delivery.TheVariants.{Inbox, Ring};
ghost use Rattle.rpc_laws.specs.Deliveries.{Delivers, delivery, inbox_room};
ghost use Rattle.rpc_base.specs.declared.event.Event.TheVariants.{Overflowed};
ghost use Rattle.rpc_laws.specs.Front.{is_control, is_message};

use crate::node::Node;
use node_steps::Delivery;
use packet_header::{Packet, decode};
use rpc_base::{Event, MOST_DATAGRAM_BYTES, Peer, Who};
use rpc_outside::Recorder;

impl Node {
    // There is no room for a datagram: it is counted, and gone.
    fn overflow<R: Recorder>(&mut self, peer: Peer, bytes: &[u8], rec: &mut R)
        requires full { delivery self.old.lists peer bytes.now ≡ Overflowed peer }
        ensures { Steps R.log (Delivers peer bytes.now) (self.old ⟶ self.new) (rec.old ⟶ rec.new) }
    {
        self.counts.overflowed = self.counts.overflowed.saturating_add(1);
        rec.note(Who::Node(self.me), Event::Overflowed { peer }, bytes, &[]);
    }

    // A packet of a call is copied into the receive ring where there is room.
    fn deliver_message<R: Recorder>(&mut self, peer: Peer, bytes: &[u8], rec: &mut R) -> Delivery
        requires message { is_message bytes.now ≡ true }
        requires long { length bytes.now ≤ MOST_DATAGRAM_BYTES }
        ensures { StepsIn R.log peer bytes.now (place_for (length self.old.lists.ring)
            self.old.lists.room Ring) result (self.old ⟶ self.new) (rec.old ⟶ rec.new) }
    {
        if self.rx.size() <= self.rx.len() {
            self.overflow(peer, bytes, rec);
            return Delivery::Full;
        }
        rec.note(Who::Node(self.me), Event::Arrived { peer }, bytes, &[]);
        self.rx.push(peer, bytes);
        Delivery::Ring
    }

    // A control packet is copied into the inbox where there is room.
    fn deliver_control<R: Recorder>(&mut self, peer: Peer, bytes: &[u8], rec: &mut R) -> Delivery
        requires control { is_control bytes.now ≡ true }
        requires other { is_message bytes.now ≡ false }
        requires long { length bytes.now ≤ MOST_DATAGRAM_BYTES }
        ensures { StepsIn R.log peer bytes.now
            (place_for (length self.old.lists.inbox) inbox_room Inbox) result (self.old ⟶ self.new)
            (rec.old ⟶ rec.new) }
    {
        if !self.inbox.has_room() {
            self.overflow(peer, bytes, rec);
            return Delivery::Full;
        }
        rec.note(Who::Node(self.me), Event::Arrived { peer }, bytes, &[]);
        self.inbox.push(peer, bytes);
        Delivery::Inbox
    }

    /// Takes a datagram from a peer: it is copied into the receive ring where it is a packet of a
    /// call, and into the inbox where it is a control packet, as long as there is room.
    pub fn deliver<R: Recorder>(&mut self, peer: Peer, bytes: &[u8], rec: &mut R) -> Delivery
        ensures { StepsIn R.log peer bytes.now (delivered_as self.old.lists bytes.now) result
            (self.old ⟶ self.new) (rec.old ⟶ rec.new) }
    {
        match decode(bytes) {
            Ok(Packet::Message(_)) => self.deliver_message(peer, bytes, rec),
            Ok(Packet::Control(_)) => self.deliver_control(peer, bytes, rec),
            Err(why) => {
                rec.note(Who::Node(self.me), Event::Bad { peer }, bytes, &[]);
                Delivery::Bad(why)
            }
        }
    }
}
