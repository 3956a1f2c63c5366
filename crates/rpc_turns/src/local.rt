//! Endpoints whose jobs are worked on their own thread, or that have none.
ghost use Rattle.std.specs.Prelude.{◌≡◌, ◌≢◌, ◌≤◌, ℕ, [], IfOk};
ghost use Rattle.node_steps.specs.Packets.{WorksFor};
ghost use Rattle.memory_count.specs.Faults.{HasCause};
ghost use Rattle.rpc_base.specs.Limits.{Fits};
ghost use Rattle.rpc_laws.specs.NodeLists.{new_node};
ghost use Rattle.rpc_laws.specs.Lives.{first_life};
ghost use Rattle.rpc_laws.specs.Service.{rules_of};
ghost use Rattle.rpc_turns.specs.Turns.{Stands};

use endpoint_loop::Endpoint;
use memory_count::{Memory, NoMemory};
use packet_header::{FIRST_LIFE, Life};
use rpc_base::{Limits, NodeId};
use rpc_outside::{Duty, Service};
use worker_crew::{LocalWorkers, Workers};

/// The duty of a service without background types: nothing is asked of it.
#[derive(Clone, Copy, Debug, PartialEq, Eq)]
pub struct NoDuty;

impl Duty for NoDuty {
    ghost answer = { λ _ _. [] };

    /// Writes nothing, since an answer of no bytes is wanted.
    fn handle(&self, _req_type: u8, _ask: &[u8], _out: &mut [u8]) {}
}

/// The workers of a service without background types.
pub type NoWorkers = LocalWorkers<NoDuty>;

/// The endpoint of node 0 in its first life with these limits, which are in their ranges, over
/// workers to which no job was given, which take as many jobs, and which answer background requests
/// as the service does. It noted nothing so far. `NoMemory` comes only where there is none for it.
pub fn new_endpoint<V: Service + Drop, W: Workers + Drop>(
    memory: &mut Memory,
    limits: Limits,
    service: V,
    workers: W,
) -> Result<Endpoint<V, W>, NoMemory>
    requires limits { Fits limits }
    requires workers { (W.limit workers ≡ limits.jobs) × (W.given workers ≡ 0)
        × (W.out workers ≡ []) }
    requires works { WorksFor W.answer (rules_of V.Service) }
    requires service { V.stands service [] }
    ensures timed { IfOk result (λ e. e.timed ≡ new_node 0 first_life limits) }
    ensures service { IfOk result (λ e. e.service ≡ service) }
    ensures workers { IfOk result (λ e. e.workers ≡ workers) }
    ensures stands { IfOk result (Stands V.Service W.Workers limits []) }
    ensures cause { HasCause memory.old memory.new result }
{
    let life = Life(FIRST_LIFE);
    match Endpoint::new(memory, NodeId(0), life, limits, service, workers) {
        Ok(endpoint) => Ok(endpoint),
        Err(_workers) => Err(NoMemory),
    }
}

/// Workers for a service without background types, and with usual limits. `NoMemory` comes only
/// where there is none for them.
pub fn no_workers(memory: &mut Memory, limits: Limits) -> Result<NoWorkers, NoMemory>
    ensures made { IfOk result (λ w. w ≡ record {
      limit = limits.jobs;
      given = 0;
      waiting = [];
      worked = [];
    }) }
    ensures cause { HasCause memory.old memory.new result }
{
    LocalWorkers::new(memory, NoDuty, limits.jobs)
}
