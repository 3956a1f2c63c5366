//! A desk by hand.
ghost use Rattle.std.specs.Prelude.{IfOk};
ghost use Rattle.deferred_calls.specs.Moves.{IsHandleOf};
ghost use Rattle.memory_count.specs.Faults.{HasCause};
ghost use Rattle.rpc_outside.specs.PlainAnswer.{background_answer};
ghost use Rattle.worker_crew.specs.Jobs.{HasRoom};

use crate::checks::{Checks, Differs};
use deferred_calls::{Deferred, Desk};
use memory_count::{Memory, NoMemory};
use message_buffer::MsgBuf;
use rpc_base::{RequestNo, SessionNo};
use rpc_outside::PlainDuty;
use worker_board::Parcel;
use worker_crew::Workers;

/// The type of a background reverse.
const REVERSE: u8 = 130;

/// The bytes `ab`, to be reversed.
fn reversal(memory: &mut Memory) -> Result<Parcel, NoMemory>
    ensures room { IfOk result (HasRoom background_answer) }
    ensures cause { HasCause memory.old memory.new result }
{
    let mut ask = MsgBuf::new(memory, 2)?;
    ask.set_len(2);
    ask.write(0, b"ab");
    let _asked = ask.bytes().len();
    let mut out = MsgBuf::new(memory, 2)?;
    out.set_len(2);
    Ok(Parcel {
        session: SessionNo(0),
        request: RequestNo::of(0, 0),
        req_type: REVERSE,
        ask,
        out,
    })
}

fn answer(desk: &mut Desk<PlainDuty>, handle: Deferred, checks: &mut Checks)
    requires handle { IsHandleOf desk.old handle }
{
    if let Err(back) = desk.answer(handle, b"ba") {
        let _parcel = back.give_up();
        checks.miss(Differs::Fits);
    }
}

/// Other bytes than the answer give the handle back, and then the answer is taken.
fn answer_twice(desk: &mut Desk<PlainDuty>, handle: Deferred, checks: &mut Checks)
    requires handle { IsHandleOf desk.old handle }
{
    match desk.answer(handle, b"ab") {
        Err(handle) => answer(desk, handle, checks),
        Ok(()) => checks.miss(Differs::Fits),
    }
}

/// The only job has one handle.
fn hand_out(desk: &mut Desk<PlainDuty>, checks: &mut Checks) {
    let Some(handle) = desk.next() else {
        checks.miss(Differs::Handle);
        return;
    };
    checks.expect(handle.number() == 0, Differs::Handle);
    checks.expect(handle.req_type() == REVERSE, Differs::Handle);
    checks.expect(handle.ask() == b"ab".as_slice(), Differs::Handle);
    match desk.next() {
        None => answer_twice(desk, handle, checks),
        Some(second) => {
            let _both = (handle.give_up(), second.give_up());
            checks.miss(Differs::Handle);
        }
    }
}

/// The job is finished, once.
fn take(desk: &mut Desk<PlainDuty>, checks: &mut Checks) {
    match desk.take() {
        Some(finished) => {
            checks.expect(finished.worked, Differs::Finished);
            checks.expect(
                finished.parcel.out.bytes() == b"ba".as_slice(),
                Differs::Finished,
            );
        }
        None => checks.miss(Differs::Finished),
    }
    checks.expect(desk.take().is_none(), Differs::Finished);
}

/// A job is answered by its handle, once.
pub fn row(memory: &mut Memory) -> Checks {
    let mut checks = Checks::new();
    match (Desk::new(memory, PlainDuty, 2), reversal(memory)) {
        (Ok(mut desk), Ok(job)) => {
            checks.expect(desk.give(job).is_ok(), Differs::Finished);
            hand_out(&mut desk, &mut checks);
            take(&mut desk, &mut checks);
        }
        _ => checks.miss(Differs::Memory),
    }
    checks
}
