//! The packets of client sessions with a rate, until each is due. It knows nothing of rates.
#![tactic(auto)]

mod chains;
mod choosing;
mod dial;
mod due_list;
mod pacer;

pub use pacer::{Paced, Pacer};
