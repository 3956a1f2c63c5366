//! The reader of reports: the bytes of a report to its facts, line by line. It reads a line
//! loosely, prints the fact that it read, and compares.
#![tactic(auto)]

mod events;
mod line;
mod name;
mod numbers;
mod octets;
mod ranges;
mod report;
mod telling;
mod text;
mod words;

pub use line::{LineReader, read_line};
pub use report::{Reading, below_head, is_end, next_line, read_fact, read_report};
