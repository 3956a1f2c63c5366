//! `serve --relay`: a server that asks its background calls of another server, and answers them by
//! the ends of those calls, a turn at a time; in the end it counts what happened.
#![tactic(auto)]

mod opening;
mod relaying;
mod run;

pub use opening::RelayEndpoint;
pub use relaying::relay;
pub use run::RelayRun;
