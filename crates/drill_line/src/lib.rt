//! The line that a drill writes: what it counts in a history, and how that is told. It knows
//! nothing of how the history comes about.
#![tactic(auto)]

mod line;

pub use line::{Counts, count, drill_line};
