//! A link over a UDP socket: the edge to the network. It tells its counts of faults and of busy
//! answers, and nothing of what a socket sent or received.
#![tactic(auto)]

mod address;
mod arrived;
mod balance;
mod buffers;
mod fates;
mod link;
mod lives;
mod peers;
mod socket;
mod trouble;

pub use link::UdpLink;
pub use trouble::Trouble;
