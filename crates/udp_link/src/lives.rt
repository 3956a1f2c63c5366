//! The lives of those who ask to connect.
use packet_header::{ControlKind, Life, Packet, decode};
use rpc_base::HEAD_BYTES;

/// The sender's life of a packet that asks to connect.
pub fn connect_life(packet: &[u8]) -> Option<Life> {
    // A control packet is a header alone, and most packets have more.
    if packet.len() != HEAD_BYTES {
        return None;
    }
    match decode(packet) {
        Ok(Packet::Control(head)) if head.kind == ControlKind::ConnectRequest => {
            Some(head.from_life)
        }
        _ => None,
    }
}
