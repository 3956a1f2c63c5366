//! A node: the sessions of an endpoint with its rings, its inbox and its clock, what always holds of
//! them, and what each call of an application does to them, over any recorder. The steps of a poll
//! stand in the crates above.
#![tactic(auto)]

mod continuation;
mod node;

pub use continuation::Continuation;
pub use node::Node;
pub use node_steps::{AskError, Asking, Delivery, JobName, Listening, Refused, Sending};
