//! What the steps of a node are: a node as contracts see it, what always holds of one, what each
//! step of a poll and each call notes, leaves and tells, with the laws of these; and the inbox and
//! the known lives. No step is made here.
#![tactic(auto)]

mod deliveries;
mod inbox;
mod jobs;
mod lives;
mod refusals;
mod told;

pub use deliveries::Delivery;
pub use inbox::{Heard, Inbox};
pub use jobs::JobName;
pub use lives::KnownLives;
pub use refusals::{AskError, Refused};
pub use told::{Asking, Listening, Sending};
