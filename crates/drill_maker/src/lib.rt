//! The drill: a large script that is made from a number, by a generator of random numbers. It knows
//! nothing of what the commands do.
#![tactic(auto)]

mod draft;
mod drawing;
mod drill;

pub use drill::{MOST_CALLS, drill_script};
