//! The test that a packet may be written.
ghost use Rattle.std.specs.Prelude.{◌↔◌, IsTrue};
ghost use Rattle.packet_header.specs.Header.{InRange};

use crate::decoding::{control_fault, message_fault};
use crate::packet::Packet;

/// Whether each field of a packet is in its range, as `encode` requires.
pub fn is_in_range(packet: &Packet) -> bool
    ensures { IsTrue result ↔ InRange packet.now }
{
    match packet {
        Packet::Message(header) => message_fault(header).is_none(),
        Packet::Control(header) => control_fault(header, 0).is_none(),
    }
}
