//! Which client sessions of an endpoint have calls or a request of their own, so that a poll visits
//! no other. It knows nothing of sessions but their numbers.
#![tactic(auto)]

mod callers;

pub use callers::CallingSessions;
