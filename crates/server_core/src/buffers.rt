//! The buffers of a request go to the pool, and leave it.
ghost use Rattle.std.specs.Prelude.{◌≡◌, ℕ, ◌<◌, ◌≤◌, IfSome, Some, false, true};
ghost use Rattle.buffer_pool.specs.Pool.{IsFull, buf_at, emptied, filled, lowest_empty, refs_of};
ghost use Rattle.buffer_pool.specs.Pool.{spare_of};
ghost use Rattle.message_buffer.specs.Buffer.{capacity_of};
ghost use Rattle.server_core.specs.Homes.{HasOwn, is_lent, is_own};
ghost use Rattle.server_core.specs.KeepsPool.{IsKept, own_names};
ghost use Rattle.server_core.specs.Serving.{IsUnheld, without_answer, without_ask};
ghost use Rattle.server_core.specs.Serving.{without_buffers};

use crate::slot::{SlotRequest, Stored};
use buffer_pool::BufferPool;
use message_buffer::MsgBuf;
use rpc_base::Place;

/// The buffers of a request of which no reply is queued leave the pool. That of its slot is given
/// back, if the answer stands in it; the others are dropped.
pub fn empty_buffers(pool: &mut BufferPool, request: &SlotRequest) -> Option<MsgBuf>
    requires kept { IsKept pool.old request.now }
    requires apart { (p : ℕ) → own_names p request.now ≤ 1 }
    requires unheld { IsUnheld pool.old request.now }
    ensures pool { pool.new ≡ without_buffers request.now pool.old }
    ensures own { HasOwn (is_lent (Some request.now)) result }
{
    empty_ask(pool, request.ask());
    empty_answer(pool, request.answer())
}

// Takes the buffer of a place to which there is no reference.
fn empty_place(pool: &mut BufferPool, place: Place) -> MsgBuf
    requires full { IsFull pool.old place }
    requires unheld { refs_of pool.old place ≡ 0 }
    ensures pool { pool.new ≡ emptied place pool.old }
    ensures buffer { buf_at pool.old place ≡ Some result }
{
    let Ok(buffer) = pool.take(place) else {
        unreachable!()
    };
    buffer
}

// Drops the buffer of a request, unless it went with a job.
fn empty_ask(pool: &mut BufferPool, ask: Option<Place>)
    requires full { IfSome ask (IsFull pool.old) }
    requires unheld { IfSome ask (λ p. refs_of pool.old p ≡ 0) }
    ensures { pool.new ≡ without_ask ask pool.old }
{
    if let Some(place) = ask {
        let _dropped = empty_place(pool, place);
    }
}

// Takes the buffer of an answer, if there is one, and gives it back if it is the slot's own.
fn empty_answer(pool: &mut BufferPool, answer: Option<Stored>) -> Option<MsgBuf>
    requires full { IfSome answer (λ a. IsFull pool.old a.place) }
    requires unheld { IfSome answer (λ a. refs_of pool.old a.place ≡ 0) }
    requires own { IfSome answer (λ a. a.own ≡ true → HasOwn true (buf_at pool.old a.place)) }
    ensures pool { pool.new ≡ without_answer answer pool.old }
    ensures own { HasOwn (is_own answer) result }
{
    let Some(answer) = answer else {
        return None;
    };
    let buffer = empty_place(pool, answer.place);
    if answer.own { Some(buffer) } else { None }
}

/// Puts a message into the pool, which has an empty place.
pub fn put_message(pool: &mut BufferPool, message: MsgBuf) -> Stored
    requires { 0 < spare_of pool.old }
    ensures place { lowest_empty pool.old ≡ Some result.place }
    ensures pool { pool.new ≡ filled result.place message pool.old }
    ensures there { buf_at pool.new result.place ≡ Some message }
    ensures size { result.size ≡ message.len }
    ensures own { result.own ≡ false }
    ensures fits { message.len ≤ capacity_of message }
{
    let place = pool.put(message);
    let size = pool.get(place).len();
    Stored {
        place,
        size,
        own: false,
    }
}
