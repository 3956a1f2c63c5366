//! Whether a report is that of a lawful history, and if not at which line.
#![tactic(auto)]

mod auditor;
mod calm;
mod fault;
mod laws;
mod lives;
mod net;
mod nodes;
mod numbers;
mod polls;
mod report;
mod tables;
mod verdict;

pub use calm::Roughness;
pub use fault::{Fault, Wrong};
pub use laws::{no_report_is_both, one_line_fails, reports_tell};
pub use net::keeps_net;
pub use polls::OpenPolls;
pub use report::{audit, fault_of};
pub use verdict::Verdict;
