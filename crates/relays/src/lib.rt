//! Jobs of a desk that are asked of another server: which were asked, and how many were answered
//! with its answers, and how many here. It asks and sends nothing by itself.
#![tactic(auto)]

mod answering;
mod law;
mod relays;

pub use law::relays_stand;
pub use relays::Relays;
