//! The credits of one client session: how many are free, and how many packets of each slot are
//! unanswered. It knows nothing of packets, calls or time, and takes no memory.
#![tactic(auto)]

mod book;

pub use book::CreditBook;
