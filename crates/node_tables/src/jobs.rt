//! Background jobs of a node, as events change them.
ghost use Rattle.std.specs.Prelude.{◌≡◌, ◌++◌, OnOk, IfOk};
ghost use Rattle.std.specs.List.{position};
ghost use Rattle.memory_count.specs.Faults.{HasCause};
ghost use Rattle.rpc_base.specs.Tables.{without_first};
ghost use Rattle.rpc_laws.specs.Jobs.{is_job, job_of, jobs_after, new_job};

use crate::counting::one_more;
use crate::servers::{place_of_request, place_of_server};
use memory_count::{Memory, NoMemory};
use rpc_base::{Event, Listed, Octets, RequestNo, SessionNo};
use rpc_laws::{Job, Jobs, Served, Server};

// Where the job of a request stands.
fn place_of(out: &Listed<Job>, session: SessionNo, request: RequestNo) -> Option<usize>
    ensures { result ≡ position (is_job session request) out.now }
{
    out.as_slice().iter().position(|job| job.session.0 == session.0
        && job.request.get() == request.get())
}

fn finish(out: &mut Listed<Job>, session: SessionNo, request: RequestNo)
    ensures { out.new ≡ without_first (is_job session request) out.old }
{
    if let Some(place) = place_of(out, session, request) {
        out.remove_at(place);
    }
}

// The job that a request becomes.
fn job_of(memory: &mut Memory, session: SessionNo, served: &Served) -> Result<Job, NoMemory>
    ensures job { IfOk result (λ job. job ≡ job_of session served.now) }
    ensures cause { HasCause memory.old memory.new result }
{
    let ask = Octets::from(memory.copied(served.ask.bytes())?);
    Ok(Job {
        session,
        request: served.number,
        req_type: served.req_type,
        ask,
    })
}

fn give(
    memory: &mut Memory,
    out: &mut Listed<Job>,
    servers: &Listed<Server>,
    session: SessionNo,
    request: RequestNo,
) -> Result<(), NoMemory>
    ensures out { OnOk result (out.new ≡ out.old ++ new_job session request servers.now) }
    ensures cause { HasCause memory.old memory.new result }
{
    let Some(i) = place_of_server(servers, session) else {
        return Ok(());
    };
    let slots = &servers.at(i).slots;
    let Some(k) = place_of_request(slots, request) else {
        return Ok(());
    };
    let job = job_of(memory, session, slots.at(k))?;
    memory.of(out.push(job))
}

/// The jobs after an event of their node, whose server sessions are those before it.
pub fn change_jobs(
    memory: &mut Memory,
    jobs: &mut Jobs,
    servers: &Listed<Server>,
    event: &Event,
) -> Result<(), NoMemory>
    ensures jobs { OnOk result (jobs.new ≡ jobs_after event.now servers.now jobs.old) }
    ensures cause { HasCause memory.old memory.new result }
{
    match event {
        Event::Given { session, request } => {
            give(memory, &mut jobs.out, servers, *session, *request)?;
            jobs.given = one_more(memory, jobs.given)?;
        }
        Event::Ran {
            session,
            request,
            ..
        } => finish(&mut jobs.out, *session, *request),
        _ => {}
    }
    Ok(())
}
