//! The lists and tables of a node as plain data, and how a fact changes them. It knows no rule.
#![tactic(auto)]

mod calls;
mod client_events;
mod clients;
mod counting;
mod jobs;
mod lives;
mod pacing;
mod queues;
mod reading;
mod servers;
mod tables;

pub use calls::{is_active, place_of_active};
pub use clients::{is_with, place_of as place_of_client};
pub use lives::known_life;
pub use queues::{count_replies, has_queued, is_due};
pub use reading::{body, front_body, read_control, read_front, read_message};
pub use servers::{place_in_slot, place_of_request, place_of_server};
pub use tables::apply;
