//! The inbox of a node: control packets that arrived and weren't handled yet.
ghost use Rattle.std.specs.Prelude.{◌≡◌, ◌<◌, ◌≤◌, ◌↔◌, nat_lt, [], ◌∷◌, ◌++◌, length, drop, true};
ghost use Rattle.std.specs.Prelude.{None, IfOk, IfSome, IsTrue};
ghost use Rattle.node_steps.specs.Inboxes.{IsFront};
ghost use Rattle.memory_count.specs.Faults.{HasCause};
ghost use Rattle.packet_header.specs.Header.{ControlInRange};
ghost use Rattle.rpc_laws.specs.Deliveries.{inbox_room};
ghost use Rattle.rpc_laws.specs.Front.{control_of, is_control};

use memory_count::{Memory, NoMemory};
use packet_header::{ControlHeader, Packet, decode};
use packet_rings::RxRing;
use rpc_base::{MOST_DATAGRAM_BYTES, Peer};
use std::marker::Model;

// So many control packets fit an inbox.
const INBOX_PLACES: u32 = 64;

// The header of a datagram that is a control packet.
fn control(bytes: &[u8]) -> Option<ControlHeader>
    ensures value { result ≡ control_of bytes.now }
    ensures in_range { IfSome result (λ h. ControlInRange h) }
{
    match decode(bytes) {
        Ok(Packet::Control(head)) => Some(head),
        Ok(Packet::Message(_)) => None,
        Err(_) => None,
    }
}

/// A control packet in an inbox: the peer that sent it, and its header.
#[derive(Clone, Copy)]
pub struct Heard {
    pub peer: Peer,
    pub head: ControlHeader,
}

/// The control packets that arrived and wait to be handled, the oldest in front: at most 64.
#[derive(Drop)]
pub struct Inbox {
    ring: RxRing,
}

impl Model for Inbox {
    ghost use Rattle.std.specs.Prelude.{◌≡◌, List, map};
    ghost use Rattle.std.specs.List.{AllByRecursion};
    ghost use Rattle.node_steps.specs.Inboxes.{IsControl};
    ghost use Rattle.node_steps.specs.Seen.{arrival_of};
    ghost use Rattle.rpc_laws.specs.declared.tables.Arrival.{Arrival};
    ghost use Rattle.rpc_laws.specs.Deliveries.{inbox_room};

    ghost Value = { List Arrival };

    ghost view = { λ b. map arrival_of b.ring.items };

    ghost invariant = { λ b. (b.ring.size ≡ inbox_room)
        × AllByRecursion IsControl (map arrival_of b.ring.items) };
}

impl Inbox {
    /// An empty inbox, whose memory is taken here. `NoMemory` comes only where there is no memory
    /// for it.
    pub fn new(memory: &mut Memory) -> Result<Inbox, NoMemory>
        ensures empty { IfOk result (λ b. b ≡ []) }
        ensures cause { HasCause memory.old memory.new result }
    {
        let ring = RxRing::new(memory, INBOX_PLACES)?;
        Ok(Inbox { ring })
    }

    /// How many packets wait.
    pub fn len(&self) -> u32
        ensures len { result ≡ length self.now }
        ensures within { result ≤ inbox_room }
    {
        let _room = self.ring.size();
        self.ring.len()
    }

    /// Tells whether no packet waits.
    pub fn is_empty(&self) -> bool
        ensures { IsTrue result ↔ (self.now ≡ []) }
    {
        self.ring.is_empty()
    }

    /// Tells whether one more packet fits.
    pub fn has_room(&self) -> bool
        ensures { result ≡ nat_lt (length self.now) inbox_room }
    {
        self.ring.len() < INBOX_PLACES
    }

    /// Puts a control packet at the back of an inbox that isn't full: its bytes are copied.
    pub fn push(&mut self, peer: Peer, bytes: &[u8])
        requires control { is_control bytes.now ≡ true }
        requires long { length bytes.now ≤ MOST_DATAGRAM_BYTES }
        requires room { length self.old < inbox_room }
        ensures { self.new ≡ self.old ++ record { peer = peer; bytes = bytes.now } ∷ [] }
    {
        self.ring.push(peer, bytes);
    }

    /// What the oldest packet tells, read where it lies. None exactly where the inbox is empty.
    pub fn front(&self) -> Option<Heard>
        ensures there { IfSome result (λ h. IsFront self.now h) }
        ensures in_range { IfSome result (λ h. ControlInRange h.head) }
        ensures none { (result ≡ None) ↔ (self.now ≡ []) }
    {
        let Some(front) = self.ring.front() else {
            return None;
        };
        let Some(head) = control(front.bytes()) else {
            unreachable!()
        };
        Some(Heard {
            peer: front.peer(),
            head,
        })
    }

    /// Drops the oldest packet where it lies. Nothing changes where the inbox is empty.
    pub fn drop_front(&mut self)
        ensures { self.new ≡ drop 1 self.old }
    {
        self.ring.drop_front();
    }
}
