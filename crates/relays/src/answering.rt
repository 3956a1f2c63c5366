//! A job is answered by the end of its call.
ghost use Rattle.std.specs.Prelude.{◌≡◌, ◌↔◌, IsTrue};
ghost use Rattle.deferred_calls.specs.Moves.{Answers, IsHandleOf};
ghost use Rattle.message_buffer.specs.Buffer.{bytes_of};
ghost use Rattle.relays.specs.Relaying.{HasAnswer};

use client_core::{Done, Outcome};
use deferred_calls::{Checked, Deferred, Desk};

// Answers a job with these bytes where they are the answer, and here otherwise. Tells which.
fn answer_or_work<D: Checked>(desk: &mut Desk<D>, handle: Deferred, out: &[u8]) -> bool
    requires handle { IsHandleOf desk.old handle }
    ensures answers { Answers D.answer handle desk.old desk.new }
    ensures fits { IsTrue result ↔ (out.now ≡ D.answer handle.parcel.req_type
        (bytes_of handle.parcel.ask)) }
{
    match desk.answer(handle, out) {
        Ok(()) => true,
        Err(handle) => {
            desk.work_here(handle);
            false
        }
    }
}

/// Answers a job, whose call is over, with the answer that came where it is the job's, and here
/// otherwise. Tells which.
pub(crate) fn answer_by<D: Checked>(desk: &mut Desk<D>, handle: Deferred, done: &Done) -> bool
    requires handle { IsHandleOf desk.old handle }
    ensures answers { Answers D.answer handle desk.old desk.new }
    ensures relayed { IsTrue result ↔ HasAnswer D.answer handle done.now }
{
    match done.outcome {
        Outcome::Ok => answer_or_work(desk, handle, done.resp.bytes()),
        Outcome::TooSmall { .. } | Outcome::PeerLost => {
            desk.work_here(handle);
            false
        }
    }
}
