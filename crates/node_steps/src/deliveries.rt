//! What becomes of a datagram that comes in.
use packet_header::BadPacket;

/// What became of a datagram.
#[derive(Clone, Copy, Debug, PartialEq, Eq)]
pub enum Delivery {
    /// It stands in the receive ring.
    Ring,
    /// It stands in the inbox, as a control packet.
    Inbox,
    /// The ring, or for a control packet the inbox, is full: it is gone.
    Full,
    /// It is no packet, and is gone.
    Bad(BadPacket),
}
