//! The laws of one node's facts, of every node in every history that follows a script; and what the
//! facts of each node of a joint run are. It runs nothing.
#![tactic(auto)]

mod laws;

pub use laws::{
    calls_are_in_order, calls_run_once, credit_balances, ended_calls_are_not_queued,
    ended_sessions_are_not_queued, follows_jointly, follows_runs, happens_at_most_once, inbox_fits,
    joint_calls_are_in_order, joint_calls_run_once, joint_happens_at_most_once,
    joint_numbers_are_used_once, joint_runs_nodes, numbers_are_used_once,
    older_requests_are_not_queued, ring_fits, scripts_pair_few, sends_its_own,
    tables_tell_the_history,
};
