//! Calls that ask a fan's bytes: several endpoints, on threads of their own or not, send what one
//! buffer has.
#![tactic(auto)]

mod asking;

pub use asking::{FanError, ask_fan};
