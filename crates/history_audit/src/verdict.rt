//! What is told of a report.

/// What is told of a report.
#[derive(Debug, Clone, Copy, PartialEq, Eq)]
pub enum Verdict {
    /// It is that of a lawful history of so many facts.
    Lawful { facts: u64 },
    /// It isn't: it fails at this line, counted from 1.
    Unlawful { line: u64 },
}
