//! The eight slots of a client session: which request is active in each, which numbers were given,
//! and the calls that wait for a slot. It knows nothing of packets, credits or time, and only moves
//! the buffers of a call.
#![tactic(auto)]

mod active;
mod table;
mod waiting;

pub use table::SlotTable;
pub use waiting::Waiting;
