//! Laws of fronts: where a run of a node may be cut, that its facts tell how it leaves the node,
//! and that at most one front of some facts is a step of it. It runs nothing.
#![tactic(auto)]

mod laws;

pub use laws::{facts_tell_the_state, one_front_is_a_poll, one_group_is_next, runs_are_cut};
