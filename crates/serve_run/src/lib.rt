//! `serve`: an endpoint that answers calls, a turn at a time, and in the end counts what happened.
#![tactic(auto)]

mod run;
mod serving;

pub use run::ServeRun;
pub use serving::serve;
