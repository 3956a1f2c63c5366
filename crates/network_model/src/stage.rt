//! What a script works on.
use crate::net::Net;
use rpc_base::Listed;
use rpc_laws::{Timed, WorkedJob};

/// The nodes of a script, the copies in flight, the jobs that were worked and aren't finished, and
/// the clock of the world in microseconds.
#[derive(Debug, Drop)]
pub struct Stage {
    pub nodes: Listed<Timed>,
    pub flight: Net,
    pub worked: Listed<WorkedJob>,
    pub clock: u64,
}
