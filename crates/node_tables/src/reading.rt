//! What a datagram says.
ghost use Rattle.std.specs.Prelude.{◌≡◌};
ghost use Rattle.packet_header.specs.Reading.{message_of, body_of};
ghost use Rattle.rpc_laws.specs.Front.{control_of, front_body, front_bytes, front_header};

use packet_header::{ControlHeader, MessageHeader, Packet, decode};
use rpc_base::{HEAD_BYTES, Listed};
use rpc_laws::Arrival;

/// The header of a datagram that is a packet of a call; `None` where it is none.
pub fn read_message(bytes: &[u8]) -> Option<MessageHeader>
    ensures { result ≡ message_of bytes.now }
{
    match decode(bytes) {
        Ok(Packet::Message(head)) => Some(head),
        Ok(Packet::Control(_)) => None,
        Err(_) => None,
    }
}

/// What follows the header.
pub fn body(bytes: &[u8]) -> &[u8]
    ensures { result.now ≡ body_of bytes.now }
{
    if bytes.len() < HEAD_BYTES {
        return &bytes[bytes.len()..];
    }
    &bytes[HEAD_BYTES..]
}

/// The header of a datagram that is a control packet; `None` where it is none.
pub fn read_control(bytes: &[u8]) -> Option<ControlHeader>
    ensures { result ≡ control_of bytes.now }
{
    match decode(bytes) {
        Ok(Packet::Message(_)) => None,
        Ok(Packet::Control(head)) => Some(head),
        Err(_) => None,
    }
}

// The bytes of the datagram at the front of a ring, none where it is empty.
fn front_bytes(ring: &Listed<Arrival>) -> &[u8]
    ensures { result.now ≡ front_bytes ring.now }
{
    if ring.is_empty() {
        return &[];
    }
    ring.first().bytes.bytes()
}

/// The header of the packet at the front of a ring; `None` where there is none.
pub fn read_front(ring: &Listed<Arrival>) -> Option<MessageHeader>
    ensures { result ≡ front_header ring.now }
{
    read_message(front_bytes(ring))
}

/// What follows the header of the datagram at the front of a ring.
pub fn front_body(ring: &Listed<Arrival>) -> &[u8]
    ensures { result.now ≡ front_body ring.now }
{
    body(front_bytes(ring))
}
