//! The endpoint with the plain service and a crew.
ghost use Rattle.std.specs.Prelude.{◌≡◌, ◌≤◌, [], IfErr, IfOk, OnErr};
ghost use Rattle.memory_count.specs.Faults.{HasCause};
ghost use Rattle.rpc_turns.specs.Plain.{IsCrewed, IsFresh, IsNew, limits_at};
ghost use Rattle.rpc_base.specs.Limits.{Fits};
ghost use Rattle.worker_crew.specs.Crews.{AreStarted};

use endpoint_loop::Endpoint;
use memory_count::{Memory, NoMemory};
use packet_header::Life;
use rpc_base::{Limits, MOST_TIMEOUT, NodeId, USUAL_JOBS, USUAL_RING};
use rpc_outside::{PlainDuty, PlainService};
use std::alloc::{AllocError, Global};
use std::sync::{Arc, Wait};
use worker_crew::{Crew, Hand, MOST_HANDS, Spawner};

/// A crew of the plain duty, whose calls wait by the handle `H`.
pub type PlainCrew<H> = Crew<PlainDuty, H>;

/// An endpoint with the plain service, whose jobs a crew works.
pub type PlainEndpoint<H> = Endpoint<PlainService, PlainCrew<H>>;

// The endpoint of node 0 in this life with limits that fit over a crew to which no job was given.
// The crew comes back where there is no memory.
fn endpoint_over<H: Wait>(
    memory: &mut Memory,
    life: Life,
    limits: Limits,
    crew: PlainCrew<H>,
) -> Result<PlainEndpoint<H>, PlainCrew<H>>
    requires life { 1 ≤ life }
    requires fits { Fits limits }
    requires jobs { limits.jobs ≡ USUAL_JOBS }
    requires fresh { IsFresh crew }
    ensures made { IfOk result (IsNew life limits crew) }
    ensures wanting { IfErr result (λ back. back ≡ crew) }
    ensures cause { HasCause memory.old memory.new result }
{
    Endpoint::new(memory, NodeId(0), life, limits, PlainService::new(), crew)
}

// The duty of a crew, which its hands share.
fn plain_duty(memory: &mut Memory) -> Result<Arc<PlainDuty, Global>, NoMemory>
    ensures { HasCause memory.old memory.new result }
{
    let made = Arc::new(memory.alloc(), PlainDuty).map_err(AllocError::from);
    memory.of(made)
}

/// The endpoint of node 0 in this life with a ring of 1,024 places, 64 jobs and this timeout, of 1
/// to 60,000,000 microseconds, which noted nothing so far, over a crew of `hands` hands, at most
/// 16, each of which is offered to the spawner, which has no hand out. `NoMemory` comes only where
/// there is none for the crew or the endpoint; no hand is out then.
pub fn plain_endpoint<H: Wait + Drop, P: Spawner<Hand<PlainDuty>>>(
    memory: &mut Memory,
    rt: H,
    life: Life,
    timeout: u32,
    hands: u8,
    spawner: &mut P,
) -> Result<PlainEndpoint<H>, NoMemory>
    requires life { 1 ≤ life }
    requires some { 1 ≤ timeout }
    requires most { timeout ≤ MOST_TIMEOUT }
    requires hands { hands ≤ MOST_HANDS }
    requires none { P.hands_out spawner.old ≡ [] }
    ensures made { IfOk result
        (IsCrewed life (limits_at timeout) hands (P.hands_out spawner.new)) }
    ensures wanting { OnErr result (P.hands_out spawner.new ≡ []) }
    ensures cause { HasCause memory.old memory.new result }
{
    let limits = Limits {
        ring: USUAL_RING,
        jobs: USUAL_JOBS,
        timeout: u64::from(timeout),
    };
    let duty = plain_duty(memory)?;
    let crew = Crew::start(memory, rt, duty, USUAL_JOBS, hands, spawner)?;
    match endpoint_over(memory, life, limits, crew) {
        Ok(endpoint) => Ok(endpoint),
        Err(crew) => {
            let _none = crew.stop(spawner);
            Err(NoMemory)
        }
    }
}

/// Lets an endpoint go whose crew has no hand out, with its sessions, its buffers and its jobs.
pub fn let_go<H: Wait + Drop>(endpoint: PlainEndpoint<H>)
    requires alone { AreStarted endpoint.workers [] }
{
    let _gone = endpoint;
}

/// Stops the crew of an endpoint, whose hands the spawner has out, and lets both go. It may wait
/// for the hands.
pub fn stop<H: Wait + Drop, P: Spawner<Hand<PlainDuty>>>(
    endpoint: PlainEndpoint<H>,
    spawner: &mut P,
)
    requires hands { AreStarted endpoint.workers (P.hands_out spawner.old) }
    ensures none { P.hands_out spawner.new ≡ [] }
{
    let _left = endpoint.into_workers().stop(spawner);
}
