//! The line that a run of turns writes: words, each with a count behind it; and that of an audit.
#![tactic(auto)]

mod audit;
mod line;
mod word;

pub use audit::{AuditLine, write_audit};
pub use line::{Count, write_counts};
pub use word::Word;
