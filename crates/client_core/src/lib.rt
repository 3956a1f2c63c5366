//! The client's part of the protocol: the calls of one session, with its slots and credits. It
//! works on the endpoint's pool, which it is handed, and knows nothing of rings, links or clocks.
#![tactic(auto)]

mod active;
mod call;
mod calls;
mod outcome;
mod session;

pub use active::Active;
pub use outcome::{Done, Outcome, Reply, Timer};
pub use session::ClientSession;
