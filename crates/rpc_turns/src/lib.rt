//! Turns of an endpoint by a clock: each waits by the link where the run is asleep, takes one
//! number of the clock, and makes one turn of the endpoint. `Running` owns an endpoint with all
//! that it needs for them.
#![tactic(auto)]

mod buffers;
mod calls;
mod credits;
mod ended;
mod error;
mod local;
mod plain;
mod rest;
mod running;
mod turn;

pub use buffers::Buffers;
pub use credits::Credits;
pub use ended::Ended;
pub use error::RpcError;
pub use local::{NoDuty, NoWorkers, new_endpoint, no_workers};
pub use plain::{PlainCrew, PlainEndpoint, let_go, plain_endpoint, stop};
pub use rest::{Rest, rests_for};
pub use running::{InlineRunning, PlainRunning, Running};
pub use turn::take_turn;
