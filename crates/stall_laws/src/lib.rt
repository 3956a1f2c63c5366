//! The law that no history stalls silently: where nothing is on its way, each call that isn't over
//! has a named cause. It runs nothing.
#![tactic(auto)]

mod laws;

pub use laws::no_stall;
