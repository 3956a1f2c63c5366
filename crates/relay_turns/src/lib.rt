//! Turns of a run that relays: an endpoint over a desk makes a turn, the ends of calls are settled,
//! and each job that was given is asked of the other server, or worked here.
#![tactic(auto)]

mod law;
mod turn;

pub use law::turns_note;
pub use turn::{TurnFault, relay_turn};
