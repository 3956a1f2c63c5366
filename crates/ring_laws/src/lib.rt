//! Laws of calm histories that follow a script, and of calm joint runs: no message finds a full
//! ring, and no packet stands in two places. It runs nothing.
#![tactic(auto)]

mod laws;

pub use laws::{joint_messages_fit, joint_packets_stand_once, messages_fit, packets_stand_once};
