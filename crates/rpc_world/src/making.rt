//! A node is made.
ghost use Rattle.std.specs.Prelude.{◌≡◌, ◌<◌, ◌≤◌, [], length, IfOk, OnOk};
ghost use Rattle.memory_count.specs.Faults.{HasReason};
ghost use Rattle.rpc_base.specs.Limits.{Fits};
ghost use Rattle.rpc_laws.specs.NodeLists.{new_node};
ghost use Rattle.sim_script.specs.FollowsScript.{Makes};
ghost use Rattle.rpc_world.specs.Performed.{Performed};

use crate::landing::check_whole;
use crate::running::Running;
use endpoint_loop::Endpoint;
use memory_count::{Memory, NoMemory};
use packet_header::{FIRST_LIFE, Life};
use rpc_base::{Event, LEAST_RING, Limits, MOST_RING, NodeId, USUAL_JOBS, USUAL_TIMEOUT, Who};
use rpc_outside::{MemRecorder, PlainDuty, PlainService, Recorder};
use script_grammar::MOST_NODES;
use worker_crew::LocalWorkers;

/// The endpoint of a node in this life, with new workers and a new service. `NoMemory` comes only
/// where there is none for them.
pub fn new_end(
    memory: &mut Memory,
    me: NodeId,
    life: Life,
    limits: Limits,
) -> Result<Endpoint<PlainService, LocalWorkers<PlainDuty>>, NoMemory>
    requires some { 1 ≤ life }
    requires limits { Fits limits }
    ensures made { IfOk result (λ e. e ≡ record {
      timed = new_node me life limits;
      handed = [];
      service = 0;
      workers = record { limit = limits.jobs; given = 0; waiting = []; worked = [] };
    }) }
    ensures cause { HasReason memory.old memory.new result }
{
    let workers = LocalWorkers::new(memory, PlainDuty, limits.jobs)?;
    match Endpoint::new(memory, me, life, limits, PlainService::new(), workers) {
        Ok(made) => Ok(made),
        Err(_workers) => Err(NoMemory),
    }
}

/// `node R`: makes the next node, with a ring of that many places.
pub fn make_node(
    memory: &mut Memory,
    stage: &mut Running,
    rec: &mut MemRecorder,
    ring: u32,
) -> Result<(), NoMemory>
    requires few { length stage.old.ends < MOST_NODES }
    requires least { LEAST_RING ≤ ring }
    requires most { ring ≤ MOST_RING }
    ensures performed { OnOk result
        (Performed (Makes ring) stage.old stage.new rec.old.facts.items rec.new.facts.items) }
    ensures cause { HasReason memory.old memory.new result }
{
    let me = NodeId(stage.nodes.len() as u8);
    rec.note(Who::Node(me), Event::Made { ring }, &[], &[]);
    check_whole(memory, rec)?;
    let limits = Limits {
        ring,
        jobs: USUAL_JOBS,
        timeout: USUAL_TIMEOUT,
    };
    let made = new_end(memory, me, Life(FIRST_LIFE), limits)?;
    memory.of(stage.nodes.push(made))?;
    Ok(())
}
