//! The endpoint: a node with the service that answers its requests and the workers that answer
//! those in the background. An application connects and closes sessions with it, and asks calls on
//! them. It takes datagrams, polls, and takes turns, in each of which it receives what came over a
//! link and polls.
#![tactic(auto)]

mod endpoint;
mod loans;

pub use endpoint::{Endpoint, LinkFault, MOST_ARRIVALS, Turn};
pub use endpoint_node::{AskError, Continuation, Delivery, Refused};
pub use loans::stands_over_a_loan;
