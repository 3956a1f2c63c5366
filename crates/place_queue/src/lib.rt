//! The queue in which the tickets of a crew's jobs wait for its hands. Its rule says what was put,
//! and who took what: each ticket is taken by one hand at most, in the order of putting, and none
//! is lost.
#![tactic(auto)]

mod knows;
mod queue;
mod rule;
mod sleeping;

pub use knows::{Knows, Numbered, Role};
pub use queue::{PlaceQueue, Putter, Taker};
pub use sleeping::{Sleeper, Wakers};
