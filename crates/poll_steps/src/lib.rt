//! The steps of a poll that are loops over the rules of a node: each tells how many of the facts
//! that follow are its own, and changes the node's lists as they do. And the poll as one.
#![tactic(auto)]

mod closing;
mod facts;
mod finishing;
mod handling;
mod hearing;
mod packets;
mod polling;
mod posting;
mod resting;
mod sending;
mod timing;

pub use finishing::finish_jobs;
pub use handling::handle_all;
pub use hearing::hear_all;
pub use polling::poll;
pub use posting::post_all;
pub use sending::send_packets;
pub use timing::time_all;
