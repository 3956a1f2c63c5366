//! How a run of the program ended, and whether a run of turns goes on.
#![tactic(auto)]

mod going;
mod reaching;
mod status;
mod words;

pub use going::Going;
pub use reaching::reach;
pub use status::Status;
pub use words::sleeps;
