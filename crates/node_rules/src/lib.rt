//! The rules of a node over its lists as plain data: which row of each table applies, what a
//! session begins and posts next, and what an application call or a delivery brings. It changes no
//! list.
#![tactic(auto)]

mod client_rule;
mod control_packets;
mod control_rule;
mod noted;
mod posting;
mod server_rule;
mod timers;

pub use client_rule::{asked_packets, client_row, end_row};
pub use control_packets::{control_reply, own_request, retry_row};
pub use control_rule::{control_row, is_stale, named_end, outdated};
pub use noted::is_group;
pub use posting::{next_begun, next_posted};
pub use server_rule::{are_full, makes_job, server_row};
pub use timers::row_of;
