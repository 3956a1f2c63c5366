//! The jobs that were worked and aren't finished.
ghost use Rattle.std.specs.Prelude.{◌≡◌, ◌==◌, not, OnOk};
ghost use Rattle.memory_count.specs.Faults.{HasReason};
ghost use Rattle.rpc_base.specs.Tables.{without_first};
ghost use Rattle.rpc_laws.specs.Working.{is_worked, worked_after, worked_after_all};
ghost use Rattle.rpc_laws.specs.Working.{worked_after_node};
ghost use Rattle.std.specs.List.{filter, position};

use memory_count::{Memory, NoMemory};
use rpc_base::{Event, Fact, Listed, NodeId, RequestNo, SessionNo, Who};
use rpc_laws::WorkedJob;

fn place_of(
    worked: &Listed<WorkedJob>,
    node: NodeId,
    session: SessionNo,
    request: RequestNo,
) -> Option<usize>
    ensures { result ≡ position (is_worked node session request) worked.now }
{
    worked.as_slice().iter().position(|job| job.node.0 == node.0
        && (job.session.0 == session.0 && job.request.get() == request.get()))
}

fn take_out(worked: &mut Listed<WorkedJob>, node: NodeId, session: SessionNo, request: RequestNo)
    ensures { worked.new ≡ without_first (is_worked node session request) worked.old }
{
    if let Some(place) = place_of(worked, node, session, request) {
        let _job = worked.remove_at(place);
    }
}

fn place_at(worked: &Listed<WorkedJob>, node: NodeId) -> Option<usize>
    ensures { result ≡ position (λ w. w.node == node) worked.now }
{
    worked
        .as_slice()
        .iter()
        .position(|job| job.node.0 == node.0)
}

// Those of a node that is made anew are gone.
fn leave_out(worked: &mut Listed<WorkedJob>, node: NodeId)
    ensures { worked.new ≡ filter (λ w. not (w.node == node)) worked.old }
{
    'jobs: while let Some(place) = place_at(worked, node) {
        let _job = worked.remove_at(place);
    }
}

fn keep_of(
    memory: &mut Memory,
    worked: &mut Listed<WorkedJob>,
    node: NodeId,
    event: &Event,
) -> Result<(), NoMemory>
    ensures kept { OnOk result (worked.new ≡ worked_after_node node event.now worked.old) }
    ensures cause { HasReason memory.old memory.new result }
{
    match event {
        Event::Worked { session, request } => {
            memory.of(worked.push(WorkedJob {
                node,
                session: *session,
                request: *request,
            }))
        }
        Event::Ran {
            session,
            request,
            ..
        } => {
            take_out(worked, node, *session, *request);
            Ok(())
        }
        Event::Restarted { .. } => {
            leave_out(worked, node);
            Ok(())
        }
        _ => Ok(()),
    }
}

fn keep_one(
    memory: &mut Memory,
    worked: &mut Listed<WorkedJob>,
    fact: &Fact,
) -> Result<(), NoMemory>
    ensures kept { OnOk result (worked.new ≡ worked_after worked.old fact.now) }
    ensures cause { HasReason memory.old memory.new result }
{
    match &fact.who {
        Who::Node(node) => keep_of(memory, worked, *node, &fact.event),
        Who::Net => Ok(()),
    }
}

/// A job that was worked waits to be finished; one whose answer was taken doesn't.
pub fn keep(
    memory: &mut Memory,
    worked: &mut Listed<WorkedJob>,
    facts: &[Fact],
) -> Result<(), NoMemory>
    ensures kept { OnOk result (worked.new ≡ worked_after_all worked.old facts.now) }
    ensures cause { HasReason memory.old memory.new result }
{
    for fact in facts {
        keep_one(memory, worked, fact)?;
    }
    Ok(())
}
