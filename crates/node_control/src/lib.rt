//! What a node does in a poll about its sessions: step 2, in which the control packets of its inbox
//! are handled, and step 4, the timers. Both hand packets to the link at once.
#![tactic(auto)]

mod control;
mod link;
mod timers;

pub use control::hear_all;
pub use timers::watch;
