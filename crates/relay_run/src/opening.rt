//! The endpoint over a desk, and its session with the other server.
ghost use Rattle.std.specs.Prelude.{◌≡◌, ◌≤◌, [], None, IfErr, IfOk, OnErr, OnOk};
ghost use Rattle.memory_count.specs.Faults.{HasCause, HasReason};
ghost use Rattle.relay_run.specs.Runs.{IsNew, Opens};
ghost use Rattle.rpc_base.specs.Limits.{Fits};
ghost use Rattle.rpc_laws.specs.Groups.{client_refusal};
ghost use Rattle.rpc_turns.specs.Plain.{limits_at};

use deferred_calls::Desk;
use endpoint_loop::Endpoint;
use memory_count::{Memory, NoMemory};
use packet_header::Life;
use rpc_base::{Limits, MOST_TIMEOUT, NodeId, Peer, USUAL_JOBS, USUAL_RING};
use rpc_outside::{PlainDuty, PlainService, Recorder};

/// The credits of the session with the other server.
pub const RELAY_CREDITS: u16 = 32;

/// An endpoint with the plain service, whose jobs are asked of another server.
pub type RelayEndpoint = Endpoint<PlainService, Desk<PlainDuty>>;

// The endpoint of node 0 in this life with limits that fit over a desk to which no job was given.
// The desk comes back where there is no memory.
fn endpoint_over(
    memory: &mut Memory,
    life: Life,
    limits: Limits,
    desk: Desk<PlainDuty>,
) -> Result<RelayEndpoint, Desk<PlainDuty>>
    requires life { 1 ≤ life }
    requires fits { Fits limits }
    requires desk { desk ≡ record {
      limit = limits.jobs;
      given = 0;
      waiting = [];
      handled = [];
      answered = [];
    } }
    ensures made { IfOk result (IsNew life limits) }
    ensures wanting { IfErr result (λ back. back ≡ desk) }
    ensures cause { HasCause memory.old memory.new result }
{
    Endpoint::new(memory, NodeId(0), life, limits, PlainService::new(), desk)
}

/// The endpoint of node 0 in this life with a ring of 1,024 places, 64 jobs and this timeout, of 1
/// to 60,000,000 microseconds, which noted nothing so far, over a desk. `NoMemory` comes only where
/// memory was refused for the desk or the endpoint.
pub(crate) fn desk_endpoint(
    memory: &mut Memory,
    life: Life,
    timeout: u32,
) -> Result<RelayEndpoint, NoMemory>
    requires life { 1 ≤ life }
    requires some { 1 ≤ timeout }
    requires most { timeout ≤ MOST_TIMEOUT }
    ensures made { IfOk result (IsNew life (limits_at timeout)) }
    ensures cause { HasReason memory.old memory.new result }
{
    let limits = Limits {
        ring: USUAL_RING,
        jobs: USUAL_JOBS,
        timeout: u64::from(timeout),
    };
    let desk = Desk::new(memory, PlainDuty, USUAL_JOBS)?;
    match endpoint_over(memory, life, limits, desk) {
        Ok(endpoint) => Ok(endpoint),
        Err(_desk) => Err(NoMemory),
    }
}

/// Opens the session with the other server, with 32 credits. `NoMemory` comes only where memory
/// was refused, and then nothing is noted.
pub(crate) fn open_session<R: Recorder>(
    memory: &mut Memory,
    endpoint: &mut RelayEndpoint,
    peer: Peer,
    rec: &mut R,
) -> Result<(), NoMemory>
    requires free { client_refusal RELAY_CREDITS endpoint.old.timed.lists ≡ None }
    ensures opens { OnOk result (Opens R.log peer endpoint.old endpoint.new rec.old rec.new) }
    ensures unnoted { OnErr result (rec.new ≡ rec.old) }
    ensures cause { HasReason memory.old memory.new result }
{
    match endpoint.connect(memory, peer, RELAY_CREDITS, 0, rec) {
        Ok(_session) => Ok(()),
        Err(_wanting) => Err(NoMemory),
    }
}

/// Lets an endpoint go, with its sessions, its buffers and its jobs.
pub(crate) fn let_go(endpoint: RelayEndpoint) {
    let _gone = endpoint;
}
