//! Jobs of the nodes are worked.
ghost use Rattle.std.specs.Prelude.{◌≡◌, ◌<◌, [], ◌∷◌, length, Some, OnOk};
ghost use Rattle.memory_count.specs.Faults.{HasReason};
ghost use Rattle.rpc_world.specs.Logged.{log_of};
ghost use Rattle.rpc_laws.specs.Facts.{plain};
ghost use Rattle.rpc_laws.specs.Working.{Works};
ghost use Rattle.rpc_outside.specs.Recording.{Grew};
ghost use Rattle.sim_script.specs.FollowsScript.{AtNode, WorksNode};
ghost use Rattle.rpc_world.specs.Performed.{Performed, work_event};
ghost use Rattle.rpc_world.specs.Before.{IsNumbered};
ghost use Rattle.rpc_world.specs.Worked.{WorksAllAt};

use crate::landing::land;
use crate::running::Running;
use endpoint_loop::Endpoint;
use memory_count::{Memory, NoMemory};
use rpc_base::{Event, NodeId, RequestNo, SessionNo, Who};
use rpc_outside::{MemRecorder, PlainDuty, PlainService, Recorder};
use worker_crew::LocalWorkers;

// Notes which waiting job was worked, or that job `j` isn't there.
fn note_work(rec: &mut MemRecorder, me: NodeId, j: u32, named: Option<(SessionNo, RequestNo)>)
    ensures { Grew (log_of rec.old) (log_of rec.new)
        (plain me (work_event j named) ∷ []) }
{
    let event = match named {
        None => Event::Missed { number: j },
        Some((session, request)) => Event::Worked { session, request },
    };
    rec.note(Who::Node(me), event, &[], &[]);
}

/// `work A J`: works that waiting job of the node, in the order of giving from 0, or notes that
/// there is none.
pub fn work_job(
    memory: &mut Memory,
    stage: &mut Running,
    rec: &mut MemRecorder,
    node: NodeId,
    job: u32,
) -> Result<(), NoMemory>
    requires node { node < length stage.old.ends }
    requires numbered { IsNumbered stage.old }
    ensures performed { OnOk result
        (Performed (AtNode (Works stage.old.worked job) node)
        stage.old stage.new rec.old.facts.items rec.new.facts.items) }
    ensures cause { HasReason memory.old memory.new result }
{
    let before = rec.facts().len();
    let working = stage.nodes.at_mut(usize::from(node.0));
    working.sound();
    let named = working.workers().work(job);
    note_work(rec, node, job, named);
    land(memory, stage, rec, before)?;
    Ok(())
}

// Works the jobs of an endpoint that wait, the oldest first, until there is none.
fn work_all(working: &mut Endpoint<PlainService, LocalWorkers<PlainDuty>>, rec: &mut MemRecorder)
    ensures { WorksAllAt working.old working.new rec.old rec.new }
{
    working.sound();
    let me = working.me();
    'jobs: while let Some(named) = working.workers().work(0) {
        note_work(rec, me, 0, Some(named));
    }
}

/// Works the jobs of the node that wait, the oldest first, until there is none.
pub fn work_node(
    memory: &mut Memory,
    stage: &mut Running,
    rec: &mut MemRecorder,
    node: NodeId,
) -> Result<(), NoMemory>
    requires node { node < length stage.old.ends }
    requires numbered { IsNumbered stage.old }
    ensures performed { OnOk result
        (Performed (WorksNode node) stage.old stage.new rec.old.facts.items
        rec.new.facts.items) }
    ensures cause { HasReason memory.old memory.new result }
{
    let before = rec.facts().len();
    let working = stage.nodes.at_mut(usize::from(node.0));
    work_all(working, rec);
    land(memory, stage, rec, before)?;
    Ok(())
}
