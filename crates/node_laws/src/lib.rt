//! The laws of one node's facts, whatever arrives: what its credits make, what happens at most
//! once, what a call that is over and an older request leave, and what its tables tell of its
//! history. It runs nothing.
#![tactic(auto)]

mod laws;

pub use laws::{
    credit_balances, datagrams_are_passed_over, ended_calls_are_not_queued,
    ended_sessions_are_not_queued, happens_at_most_once, inbox_fits, lists_are_kept,
    numbers_are_used_once, older_requests_are_not_queued, queued_packets_fit,
    requests_tell_the_history, ring_fits, sends_its_own, shares_fit, tables_tell_the_history,
};
