//! Jobs are asked of the other server, or worked here.
ghost use Rattle.std.specs.Prelude.{◌≡◌, ◌≢◌, ◌≤◌, ◌-◌, ◌∷◌, [], IfErr, IfOk};
ghost use Rattle.std.specs.Prelude.{MatchResult, OnErr, OnOk};
ghost use Rattle.node_steps.specs.Lacks.{lacks_for};
ghost use Rattle.node_steps.specs.declared.refusals.AskError.TheVariants.{NoMemory as Wanting};
ghost use Rattle.memory_count.specs.Faults.{HasCause, HasReason, HasRisenBy};
ghost use Rattle.message_buffer.specs.Buffer.{bytes_of, capacity_of};
ghost use Rattle.relay_steps.specs.Passing.{GoesPast, PassesAll, PassesOn, relayed};
ghost use Rattle.relay_steps.specs.Asking.{AsksOne, RefusesOne};
ghost use Rattle.relays.specs.Relaying.{Stands};

use crate::lending::{keep_handle, next_handle, work_job};
use deferred_calls::{Checked, Deferred, Desk};
use endpoint_loop::{AskError, Endpoint, Refused};
use memory_count::{Memory, NoMemory};
use message_buffer::MsgBuf;
use relays::Relays;
use rpc_base::SessionNo;
use rpc_outside::{Recorder, Service};

/// The number of the client session with the other server.
pub const OTHER_SERVER: u16 = 0;

/// How much less than a job's type the type of its call is.
pub const BACKGROUND: u8 = 128;

// Buffers for the call of a job: one with its bytes, and one of its answer's size.
fn call_buffers(memory: &mut Memory, handle: &Deferred) -> Result<(MsgBuf, MsgBuf), NoMemory>
    ensures asks { IfOk result (λ b. bytes_of b.0 ≡ bytes_of handle.now.parcel.ask) }
    ensures room { IfOk result (λ b. capacity_of b.1 ≡ handle.now.parcel.out.len) }
    ensures cause { HasCause memory.old memory.new result }
{
    let req = handle.copy_ask(memory)?;
    let resp = MsgBuf::new(memory, handle.room())?;
    Ok((req, resp))
}

// The type of a job's call.
fn nested_type(handle: &Deferred) -> u8
    ensures { result ≡ handle.now.parcel.req_type - BACKGROUND }
{
    handle.req_type().saturating_sub(BACKGROUND)
}

// Asks the call of a job with these buffers. A refusal lets them go.
fn ask_with<V: Service, D: Checked, R: Recorder>(
    memory: &mut Memory,
    endpoint: &mut Endpoint<V, Desk<D>>,
    handle: &Deferred,
    req: MsgBuf,
    resp: MsgBuf,
    rec: &mut R,
) -> Result<(), AskError>
    requires asks { bytes_of req ≡ bytes_of handle.now.parcel.ask }
    requires room { capacity_of resp ≡ handle.now.parcel.out.len }
    ensures asked { OnOk result (AsksOne R.log V.Service D.answer handle.now endpoint.old
        endpoint.new rec.old rec.new) }
    ensures refused { IfErr result (λ why. why ≢ Wanting
        → RefusesOne R.log V.Service D.answer endpoint.old rec.old rec.new) }
    ensures unchanged { OnErr result (endpoint.new ≡ endpoint.old) }
    ensures wanting { IfErr result (λ why. why ≡ Wanting → rec.new ≡ rec.old) }
    ensures cause { MatchResult result (λ _. memory.old ≤ memory.new)
        (λ why. HasRisenBy (lacks_for why) memory.old memory.new) }
{
    let _message = req.bytes();
    let req_type = nested_type(handle);
    let tag = handle.number();
    let session = SessionNo(OTHER_SERVER);
    match endpoint.ask(memory, session, req_type, req, resp, tag, rec) {
        Ok(_call) => Ok(()),
        Err(refused) => {
            let Refused {
                why,
                req: _req,
                resp: _resp,
            } = refused;
            Err(why)
        }
    }
}

// Asks the call of a job.
fn ask_job<V: Service, D: Checked, R: Recorder>(
    memory: &mut Memory,
    endpoint: &mut Endpoint<V, Desk<D>>,
    handle: &Deferred,
    rec: &mut R,
) -> Result<(), AskError>
    ensures asked { OnOk result (AsksOne R.log V.Service D.answer handle.now endpoint.old
        endpoint.new rec.old rec.new) }
    ensures refused { IfErr result (λ why. why ≢ Wanting
        → RefusesOne R.log V.Service D.answer endpoint.old rec.old rec.new) }
    ensures unchanged { OnErr result (endpoint.new ≡ endpoint.old) }
    ensures wanting { IfErr result (λ why. why ≡ Wanting → rec.new ≡ rec.old) }
    ensures cause { MatchResult result (λ _. memory.old ≤ memory.new)
        (λ why. HasRisenBy (lacks_for why) memory.old memory.new) }
{
    match call_buffers(memory, handle) {
        Ok((req, resp)) => ask_with(memory, endpoint, handle, req, resp, rec),
        Err(_) => Err(AskError::NoMemory),
    }
}

/// Asks a job of the other server, on the session that stands with it, or works it here where its
/// call is refused. `NoMemory` comes only where memory for the call was refused; its handle is
/// given up then.
pub fn pass_on<V: Service, D: Checked, R: Recorder>(
    memory: &mut Memory,
    endpoint: &mut Endpoint<V, Desk<D>>,
    relays: &mut Relays,
    handle: Deferred,
    rec: &mut R,
) -> Result<(), NoMemory>
    requires stands { Stands endpoint.old.workers (handle ∷ []) relays.old }
    ensures stands { OnOk result (Stands endpoint.new.workers [] relays.new) }
    ensures passes { OnOk result (PassesOn R.log V.Service D.answer handle
        (relayed endpoint.old relays.old) (relayed endpoint.new relays.new) rec.old rec.new) }
    ensures wanting { OnErr result ((endpoint.new ≡ endpoint.old) × (rec.new ≡ rec.old)) }
    ensures cause { HasReason memory.old memory.new result }
{
    match ask_job(memory, endpoint, &handle, rec) {
        Ok(()) => keep_handle(endpoint, relays, handle),
        Err(AskError::NoMemory) => {
            let _parcel = handle.give_up();
            return Err(NoMemory);
        }
        Err(AskError::TooLarge { .. }) => work_job(endpoint, relays, handle),
        Err(AskError::NotConnected { .. }) => work_job(endpoint, relays, handle),
    }
    Ok(())
}

/// Gives a handle to each job that has none, in order of giving, and passes it on. `NoMemory` comes
/// only where memory for the call of one was refused; the jobs behind it wait then.
pub fn pass_all<V: Service, D: Checked, R: Recorder>(
    memory: &mut Memory,
    endpoint: &mut Endpoint<V, Desk<D>>,
    relays: &mut Relays,
    rec: &mut R,
) -> Result<(), NoMemory>
    requires stands { Stands endpoint.old.workers [] relays.old }
    ensures stands { OnOk result (Stands endpoint.new.workers [] relays.new) }
    ensures passes { OnOk result (PassesAll R.log V.Service D.answer
        (relayed endpoint.old relays.old) (relayed endpoint.new relays.new) rec.old rec.new) }
    ensures goes_on { GoesPast R.log V.Service D.answer endpoint.old endpoint.new rec.old rec.new }
    ensures cause { HasReason memory.old memory.new result }
{
    'jobs: while let Some(handle) = next_handle(endpoint, relays) {
        pass_on(memory, endpoint, relays, handle, rec)?;
    }
    Ok(())
}
