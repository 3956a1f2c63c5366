//! The tools of the program: words and the outside in, a status out.
#![tactic(auto)]

mod drill;
mod reading;
mod report;
mod serving;
mod simulation;
mod tasks;
mod tools;

pub use load_run::LoadRun;
pub use relay_run::RelayRun;
pub use run_status::{Going, Status};
pub use serve_run::ServeRun;
pub use simulation::sim;
pub use tools::run;
