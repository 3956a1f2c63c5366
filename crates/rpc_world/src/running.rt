//! What a script works on while it runs.
ghost use Rattle.std.specs.Prelude.{◌≡◌, []};

use endpoint_loop::Endpoint;
use network_model::Net;
use rpc_base::Listed;
use rpc_laws::WorkedJob;
use rpc_outside::{PlainDuty, PlainService};
use std::alloc::Global;
use std::marker::Model;
use worker_crew::LocalWorkers;

/// The endpoints of a script's nodes, each with the plain service and with workers on the world's
/// own thread, the copies in flight, the jobs that were worked and aren't finished, and the clock
/// of the world in microseconds.
#[derive(Drop)]
pub struct Running {
    pub nodes: Listed<Endpoint<PlainService, LocalWorkers<PlainDuty>>>,
    pub flight: Net,
    pub worked: Listed<WorkedJob>,
    pub clock: u64,
}

impl Model for Running {
    ghost use Rattle.rpc_world.specs.Answered.{Play};

    ghost Value = { Play };

    ghost view = { λ r. record {
      ends = r.nodes;
      flight = r.flight;
      worked = r.worked;
      clock = r.clock;
    } };
}

impl Running {
    /// No node yet, and nothing in flight, at clock 0.
    pub fn new(alloc: Global) -> Running
        ensures { result ≡ record { ends = []; flight = []; worked = []; clock = 0 } }
    {
        Running {
            nodes: Listed::new(alloc),
            flight: Net::new(alloc),
            worked: Listed::new(alloc),
            clock: 0,
        }
    }
}
