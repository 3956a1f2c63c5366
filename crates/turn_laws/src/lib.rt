//! Laws of endpoints over wires to which only what was sent comes: what they do in turns and calls
//! is a wire run. It runs nothing.
#![tactic(auto)]

mod laws;

pub use laws::{
    calls_are_deeds, endpoints_join_and_stay, new_endpoints_did_nothing, pairs_go_on_wires,
    systems_keep_calls, systems_run_over_wires, turns_are_deeds,
};
