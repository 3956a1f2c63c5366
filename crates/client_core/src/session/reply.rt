//! The client table: what a CR or Response does to the call that it is for.
ghost use Rattle.std.specs.Prelude.{◌≡◌, ◌≢◌, ◌+◌, ◌≤◌, true, length, Some};
ghost use Rattle.rpc_laws.specs.declared.rows.ClientRow.TheVariants.{Takes};
ghost use Rattle.rpc_laws.specs.declared.rows.EndRow.TheVariants.{GoesOn};
ghost use Rattle.message_buffer.specs.Buffer.{capacity_of, with_len};
ghost use Rattle.buffer_pool.specs.Pool.{buf_at};
ghost use Rattle.packet_header.specs.Header.{MessageInRange};
ghost use Rattle.rpc_laws.specs.Calls.{is_response};
ghost use Rattle.client_core.specs.Effects.{RepliesTo};
ghost use Rattle.client_core.specs.KeepsPool.{IsKept, KeepsPool};
ghost use Rattle.client_core.specs.Session.{IsInTurn};
ghost use Rattle.client_core.specs.Replies.{IsDone, IsPart, IsTaken, IsUnheld, NextIsUnheld};
ghost use Rattle.client_core.specs.Replies.{Replies, after_reply, answered, call_as, end_of};
ghost use Rattle.client_core.specs.Replies.{returned, rewritten_at, row_told, sized};
ghost use Rattle.client_core.specs.Replies.{with_part, without_buffers, without_call};
ghost use Rattle.client_core.specs.Keeping.{IsActive, StillKeeps};

use super::ClientSession;
use crate::call::ActiveCall;
use crate::outcome::{Done, Outcome, Reply};
use buffer_pool::BufferPool;
use message_buffer::MsgBuf;
use packet_header::{MessageHeader, count};
use rpc_base::{DropReason, MOST_MESSAGE_BYTES, PART_BYTES, SessionNo};
use rpc_laws::{ClientRow, EndRow};

impl ClientSession {
    /// Handles a CR or Response of this session at `now`, in microseconds, by the client table.
    /// `queued` tells whether the call's packet of the reply's number is queued. A part of an
    /// answer goes straight into the response buffer.
    pub fn on_reply(
        &mut self,
        pool: &mut BufferPool,
        head: &MessageHeader,
        body: &[u8],
        queued: bool,
        now: u64,
    ) -> Reply
        requires keeps_pool { KeepsPool pool.old self.old.active }
        requires in_range { MessageInRange head.now }
        requires session { head.now.session ≡ self.old.number }
        // What is queued of a call has numbers from `got` on, so that no entry is left where this
        // is the only unanswered packet.
        requires unheld { NextIsUnheld pool.old queued head.now.number
            (call_as head.now.request self.old) }
        ensures { RepliesTo now head.now body.now queued result self.old self.new pool.old
            pool.new }
    {
        let Some(call) = self.calls.of_request(head.request) else {
            return Reply::Dropped(DropReason::NoCall);
        };
        match call.row(head, body.len(), queued) {
            ClientRow::Drops(reason) => Reply::Dropped(reason),
            ClientRow::Takes => self.take(pool, call, head, body, now),
        }
    }

    // A reply to an active call is taken.
    fn take(
        &mut self,
        pool: &mut BufferPool,
        call: ActiveCall,
        head: &MessageHeader,
        body: &[u8],
        now: u64,
    ) -> Reply
        requires call { IsActive call self.old pool.old }
        requires of_call { head.now.request ≡ call.request }
        requires turn { IsInTurn call }
        requires taken { IsTaken call head.now (length body.now) }
        requires small { is_response head.now.kind ≡ true → head.now.size ≤ MOST_MESSAGE_BYTES }
        requires unheld { call.posted ≡ call.got + 1 → IsUnheld pool.old call }
        ensures took { row_told result ≡ Takes }
        ensures replies { Replies result now head.now body.now self.old self.new pool.old pool.new }
        ensures still { StillKeeps self.new pool.old pool.new }
    {
        match call.end_row(head) {
            EndRow::GoesOn => {
                self.go_on(pool, call, head, body, now);
                Reply::Took
            }
            EndRow::EndsOk => {
                write_part(pool, &call, head, body);
                let done = self.end(pool, call, Outcome::Ok);
                Reply::Ended(done)
            }
            EndRow::EndsTooSmall(size) => {
                let done = self.end(pool, call, Outcome::TooSmall { size });
                Reply::Ended(done)
            }
        }
    }

    // A reply to an active call was taken, and the call goes on.
    fn go_on(
        &mut self,
        pool: &mut BufferPool,
        call: ActiveCall,
        head: &MessageHeader,
        body: &[u8],
        now: u64,
    )
        requires call { IsActive call self.old pool.old }
        requires taken { IsTaken call head.now (length body.now) }
        requires goes_on { end_of head.now call ≡ GoesOn }
        requires small { is_response head.now.kind ≡ true → head.now.size ≤ MOST_MESSAGE_BYTES }
        ensures session { self.new ≡ after_reply now head.now call self.old }
        ensures pool { pool.new ≡ answered call head.now body.now pool.old }
        ensures still { StillKeeps self.new pool.old pool.new }
    {
        self.credits.give_back(call.request.slot());
        self.calls.replace(call.request, call.replied(head, now));
        write_part(pool, &call, head, body);
    }

    // An active call that no queued entry names is over.
    #[inline(always)]
    pub(super) fn end(&mut self, pool: &mut BufferPool, call: ActiveCall, outcome: Outcome) -> Done
        requires call { IsActive call self.old pool.old }
        requires unheld { IsUnheld pool.old call }
        ensures done { IsDone self.old.number outcome call pool.old result }
        ensures session { self.new ≡ without_call call self.old }
        ensures pool { pool.new ≡ without_buffers call pool.old }
        ensures still { StillKeeps self.new pool.old pool.new }
    {
        self.credits.roll(call.request.slot());
        self.slots.end(call.request);
        self.calls.remove(call.request);
        take_buffers(pool, self.number, call, outcome)
    }
}

// Gives the buffer of an answer its length, where that wasn't told before.
fn give_size(buf: &mut MsgBuf, told: Option<u32>, size: u32)
    requires { size ≤ capacity_of buf.old }
    ensures { buf.new ≡ sized told size buf.old }
{
    if told.is_none() {
        buf.set_len(size);
    }
}

// Writes the part of an answer that a reply carries into the response buffer; a CR carries none.
fn write_part(pool: &mut BufferPool, call: &ActiveCall, head: &MessageHeader, body: &[u8])
    requires kept { IsKept pool.old call.now }
    requires part { is_response head.now.kind ≡ true → IsPart call.now head.now (length body.now) }
    ensures { pool.new ≡ answered call.now head.now body.now pool.old }
{
    if head.kind.is_response() {
        put_part(pool, call, head, body);
    }
}

fn put_part(pool: &mut BufferPool, call: &ActiveCall, head: &MessageHeader, body: &[u8])
    requires kept { IsKept pool.old call.now }
    requires part { IsPart call.now head.now (length body.now) }
    ensures { pool.new ≡ rewritten_at call.now.answer (with_part call.now head.now body.now)
        (buf_at pool.old call.now.answer) pool.old }
{
    let at = PART_BYTES * (u32::from(head.number) + 1 - count(call.len));
    let buf = pool.get_mut(call.answer);
    give_size(buf, call.size, head.size);
    buf.write(at, body);
}

// Takes the two buffers of an active call out of the pool. The response buffer has no bytes where
// the call didn't end well.
#[inline(always)]
fn take_buffers(
    pool: &mut BufferPool,
    session: SessionNo,
    call: ActiveCall,
    outcome: Outcome,
) -> Done
    requires kept { IsKept pool.old call }
    requires apart { call.ask ≢ call.answer }
    requires unheld { IsUnheld pool.old call }
    ensures done { IsDone session outcome call pool.old result }
    ensures pool { pool.new ≡ without_buffers call pool.old }
{
    let Ok(req) = pool.take(call.ask) else {
        unreachable!()
    };
    let Ok(resp) = pool.take(call.answer) else {
        unreachable!()
    };
    Done {
        call: call.call,
        session,
        tag: call.tag,
        outcome,
        req,
        resp: returned(outcome, resp),
    }
}

/// The response buffer as it is handed back: with the answer, or with no bytes.
pub(super) fn returned(outcome: Outcome, resp: MsgBuf) -> MsgBuf
    ensures { result ≡ returned outcome resp }
{
    match outcome {
        Outcome::Ok => resp,
        Outcome::TooSmall { .. } => emptied(resp),
        Outcome::PeerLost => emptied(resp),
    }
}

fn emptied(mut buf: MsgBuf) -> MsgBuf
    ensures { result ≡ with_len 0 buf }
{
    buf.set_len(0);
    buf
}
