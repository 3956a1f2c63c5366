//! The sessions of an endpoint, on one pool and one transmit ring that they share. They note no
//! facts and read no clock.
#![tactic(auto)]

mod store;

pub use store::{OwnRequests, Store};
