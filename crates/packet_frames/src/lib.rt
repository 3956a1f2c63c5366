//! Several packets in one datagram: how they are put in, and how they are taken out. It knows
//! nothing of sockets and peers, nor of what packets say.
#![tactic(auto)]

mod frame;
mod laws;
mod reading;
mod sizes;

pub use frame::Frame;
pub use laws::{one_list_only, reads_back, takes_each_packet};
pub use reading::{Span, is_frame, next_packet};
pub use sizes::{
    FRAME_BYTE, LEAST_FRAME_BYTES, LENGTH_BYTES, MOST_FRAME_BYTES, MOST_PACKET_BYTES,
    USUAL_FRAME_BYTES,
};
