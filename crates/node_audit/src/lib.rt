//! Whether the facts of one node are its making and then a run, which is read a fact at a time. It
//! knows nothing of other nodes, nor of reports.
#![tactic(auto)]

mod answers;
mod course;
mod groups;
mod handled;
mod kinds;
mod node;
mod worked;

pub use kinds::{ends_poll, is_polls};
pub use node::NodeAudit;
pub use worked::WorkedJobs;
