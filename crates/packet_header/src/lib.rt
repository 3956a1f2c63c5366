//! The 20 bytes that head every datagram: the packets, their ranges and lengths, reading and
//! writing. It knows nothing of sessions, calls or queues.
#![tactic(auto)]

mod decoding;
mod encoding;
mod laws;
mod layout;
mod life;
mod packet;
mod parts;
mod range_test;
mod ranges;

pub use decoding::{decode, message_header};
pub use encoding::encode;
pub use laws::{every_packet_has_one_head, no_bytes_spell_two_packets};
pub use layout::MAGIC;
pub use life::{FIRST_LIFE, Life};
pub use packet::{
    ACCEPTED, BadPacket, ControlHeader, ControlKind, GONE, Kind, MessageHeader, NO_ROOM, Packet,
};
pub use parts::{count, part_len};
pub use range_test::is_in_range;
