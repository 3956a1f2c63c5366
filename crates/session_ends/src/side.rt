//! A client session with its peer.
ghost use Rattle.std.specs.Prelude.{◌≡◌, ◌<◌, ◌≤◌, length, slice_get, IfErr, IfSome, IsSome, OnErr};
ghost use Rattle.std.specs.Prelude.{OnOk, vec_capacity};
ghost use Rattle.std.specs.List.{AllByRecursion};
ghost use Rattle.memory_count.specs.Faults.{HasCause};
ghost use Rattle.buffer_pool.specs.Pool.{spare_of};
ghost use Rattle.client_core.specs.Effects.{RepliesTo};
ghost use Rattle.client_core.specs.KeepsPool.{IsHeld};
ghost use Rattle.client_core.specs.Replies.{IsUnheld, NextIsUnheld, call_as};
ghost use Rattle.client_core.specs.Timeouts.{call_numbered, timer_told};
ghost use Rattle.client_core.specs.declared.call.ActiveCall.{ActiveCall};
ghost use Rattle.packet_header.specs.Header.{AreBytes, MessageInRange};
ghost use Rattle.session_ends.specs.Effects.{SideBegins, SideFlushes, SideLoses, SidePosts};
ghost use Rattle.session_ends.specs.Effects.{SideChanges, SideRolls, SideSends, SideWaits};
ghost use Rattle.session_ends.specs.Effects.{SpellsIn};
ghost use Rattle.session_ends.specs.Sides.{IsOfSide, MayPost, SideKept, life_at, server_at};

use crate::stage::Stage;
use buffer_pool::BufferPool;
use client_core::{ClientSession, Done, Reply, Timer};
use memory_count::Memory;
use packet_header::{Life, MessageHeader};
use packet_rings::Entry;
use rpc_base::{
    CallNo, HEAD_BYTES, MOST_CALLS, MOST_MESSAGE_BYTES, Peer, RequestNo, SESSION_NUMBERS, SessionNo,
};
use rpc_laws::TimerRow;
use session_slots::Waiting;

/// A client session, its peer, and how far it has come. Whoever has the list of them keeps of each
/// that its calls stand in the order of their numbers, that its buffers are the pool's, and that
/// its number is its place.
#[derive(Drop)]
pub struct Side {
    /// To whom its packets go; it never changes.
    pub peer: Peer,
    /// It goes the way that `Stage` draws, and no other.
    pub stage: Stage,
    /// Its calls, and its other end once that is known: `ClientSession::connected` comes before the
    /// stage is Connected.
    pub session: ClientSession,
}

/// What is known of a client session's other end.
#[derive(Clone, Copy, Debug)]
pub struct ClientEnd {
    pub peer: Peer,
    pub credits: u16,
    /// The session's number at the server, 65,535 before it is connected.
    pub server: SessionNo,
    /// The life of the server's endpoint, 0 before it is connected.
    pub life: Life,
}

impl Side {
    /// The session's number at the server, 65,535 before it is connected.
    pub fn server(&self) -> SessionNo
        ensures { result ≡ server_at self.now.stage self.now.session }
    {
        match &self.stage {
            Stage::Connecting { .. } | Stage::Failed => SessionNo(SESSION_NUMBERS),
            Stage::Connected | Stage::Closing { .. } | Stage::Closed | Stage::Broken => {
                self.session.server()
            }
        }
    }

    /// The life of the server's endpoint, 0 before the session is connected.
    pub fn life(&self) -> Life
        ensures { result ≡ life_at self.now.stage self.now.session }
    {
        match &self.stage {
            Stage::Connecting { .. } | Stage::Failed => Life(0),
            Stage::Connected | Stage::Closing { .. } | Stage::Closed | Stage::Broken => {
                self.session.life()
            }
        }
    }
}

/// Session `i` posts its next packet.
pub fn post_at(sides: &mut Vec<Side>, i: usize, pool: &mut BufferPool) -> Option<Entry>
    requires known { i < length sides.old.items }
    requires keeps { AllByRecursion (MayPost pool.old) sides.old.items }
    ensures posts { SidePosts i result sides.old.items sides.new.items pool.old pool.new }
    ensures room { vec_capacity sides.new ≡ vec_capacity sides.old }
{
    let side = &mut sides[i];
    let peer = side.peer;
    side.session.post(pool, peer)
}

/// The call of session `i` that waited longest begins, where a slot is free.
pub fn begin_at(
    sides: &mut Vec<Side>,
    i: usize,
    pool: &mut BufferPool,
) -> Option<(CallNo, RequestNo)>
    requires known { i < length sides.old.items }
    requires keeps { AllByRecursion (SideKept pool.old) sides.old.items }
    requires spare { 2 ≤ spare_of pool.old }
    ensures begins { SideBegins i result sides.old.items sides.new.items pool.old pool.new }
    ensures room { vec_capacity sides.new ≡ vec_capacity sides.old }
{
    let side = &mut sides[i];
    side.session.begin(pool)
}

/// Writes the header of an entry of session `i`, and lends its body.
pub fn packet_at<'a>(
    sides: &Vec<Side>,
    i: usize,
    pool: &'a BufferPool,
    entry: &Entry,
    head: &mut [u8; HEAD_BYTES],
) -> &'a [u8]
    requires keeps { AllByRecursion (SideKept pool.now) sides.now.items }
    requires stands { IsOfSide entry.now (slice_get sides.now.items i) }
    ensures spells { SpellsIn pool.now entry.now head.new result.now
        (slice_get sides.now.items i) }
    ensures bytes { AreBytes head.new }
{
    sides[i].session.packet(pool, entry, head)
}

/// An entry of session `i` was sent at `now`.
pub fn sent_at(sides: &mut Vec<Side>, i: usize, pool: &mut BufferPool, entry: &Entry, now: u64)
    requires known { i < length sides.old.items }
    requires keeps { AllByRecursion (SideKept pool.old) sides.old.items }
    requires held { IsHeld pool.old entry.now.place }
    ensures sends { SideSends entry.now now i sides.old.items sides.new.items pool.old pool.new }
    ensures room { vec_capacity sides.new ≡ vec_capacity sides.old }
{
    let side = &mut sides[i];
    side.session.sent(pool, entry, now);
}

/// An entry of session `i` was taken out unsent.
pub fn flushed_at(sides: &mut Vec<Side>, i: usize, pool: &mut BufferPool, entry: &Entry)
    requires known { i < length sides.old.items }
    requires keeps { AllByRecursion (SideKept pool.old) sides.old.items }
    requires held { IsHeld pool.old entry.now.place }
    ensures flushes { SideFlushes entry.now i sides.old.items sides.new.items pool.old pool.new }
    ensures room { vec_capacity sides.new ≡ vec_capacity sides.old }
{
    let side = &mut sides[i];
    side.session.flushed(pool, entry);
}

/// A call waits on session `i`. Err comes only where memory was refused, and hands the call back.
pub fn enqueue_at(
    memory: &mut Memory,
    sides: &mut Vec<Side>,
    i: usize,
    waiting: Waiting,
) -> Result<(), Waiting>
    requires known { i < length sides.old.items }
    requires message { waiting.req.len ≤ MOST_MESSAGE_BYTES }
    requires turns { IfSome (slice_get sides.old.items i)
        (λ s. s.session.slots.taken < MOST_CALLS) }
    ensures waits { OnOk result (SideWaits i waiting sides.old.items sides.new.items) }
    ensures unchanged { OnErr result (sides.new.items ≡ sides.old.items) }
    ensures handed_back { IfErr result (λ back. back ≡ waiting) }
    ensures room { vec_capacity sides.new ≡ vec_capacity sides.old }
    ensures cause { HasCause memory.old memory.new result }
{
    let side = &mut sides[i];
    side.session.enqueue(memory, waiting)
}

/// Session `i` handles a reply to one of its calls at `now`. `is_waiting` tells whether the call's
/// packet of the reply's number is queued.
pub fn heard_at(
    sides: &mut Vec<Side>,
    i: usize,
    pool: &mut BufferPool,
    head: &MessageHeader,
    body: &[u8],
    is_waiting: bool,
    now: u64,
) -> Reply
    requires known { i < length sides.old.items }
    requires keeps { AllByRecursion (SideKept pool.old) sides.old.items }
    requires in_range { MessageInRange head.now }
    requires session { IfSome (slice_get sides.old.items i)
        (λ s. head.now.session ≡ s.session.number) }
    requires unheld { IfSome (slice_get sides.old.items i) (λ s. NextIsUnheld pool.old is_waiting
        head.now.number (call_as head.now.request s.session)) }
    ensures replies { SideChanges i (λ s later. RepliesTo now head.now body.now is_waiting result
        s.session later pool.old pool.new) sides.old.items sides.new.items }
    ensures room { vec_capacity sides.new ≡ vec_capacity sides.old }
{
    let side = &mut sides[i];
    side.session.on_reply(pool, head, body, is_waiting, now)
}

/// A call of session `i` is rolled back, of which no packet is queued any more.
pub fn roll_at(sides: &mut Vec<Side>, i: usize, call: CallNo)
    requires known { i < length sides.old.items }
    requires active { IfSome (slice_get sides.old.items i)
        (λ s. IsSome (call_numbered call s.session)) }
    requires few { IfSome (slice_get sides.old.items i)
        (λ s. IfSome (call_numbered call s.session) (λ c. c.rolls < 8)) }
    requires idle { IfSome (slice_get sides.old.items i)
        (λ s. IfSome (call_numbered call s.session) (λ c. c.queued ≡ 0)) }
    ensures rolls { SideRolls i call sides.old.items sides.new.items }
    ensures room { vec_capacity sides.new ≡ vec_capacity sides.old }
{
    let side = &mut sides[i];
    side.session.roll(call);
}

/// The next call of session `i` ends, which lost its peer and has no packet queued.
pub fn lose_at(sides: &mut Vec<Side>, i: usize, pool: &mut BufferPool) -> Option<Done>
    requires known { i < length sides.old.items }
    requires keeps { AllByRecursion (SideKept pool.old) sides.old.items }
    requires unheld { IfSome (slice_get sides.old.items i)
        (λ s. AllByRecursion (IsUnheld pool.old) s.session.active) }
    ensures loses { SideLoses i result sides.old.items sides.new.items pool.old pool.new }
    ensures room { vec_capacity sides.new ≡ vec_capacity sides.old }
{
    let side = &mut sides[i];
    side.session.lose(pool)
}

/// The row that a look at a call's clock tells.
pub fn told_row(timer: &Timer) -> TimerRow
    ensures { (c : ActiveCall) → (row : TimerRow) → timer.now ≡ timer_told row c → row ≡ result }
{
    match timer {
        Timer::Quiet => TimerRow::Waits,
        Timer::Roll { .. } => TimerRow::RollsBack,
        Timer::Lost => TimerRow::Breaks,
    }
}
