//! `load`: an endpoint that asks calls of a server, a turn at a time, and in the end counts how
//! they ended.
#![tactic(auto)]

mod asking;
mod ledger;
mod loading;
mod run;
mod tally;

pub use loading::load;
pub use run::LoadRun;
