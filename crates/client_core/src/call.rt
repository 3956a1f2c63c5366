//! What a session keeps of an active call.
ghost use Rattle.std.specs.Prelude.{◌≡◌, ◌≤◌, ◌<◌, ◌^◌, Some};
ghost use Rattle.packet_header.specs.Header.{MessageInRange};
ghost use Rattle.packet_header.specs.Parts.{packet_count, part_size, IsMessage};
ghost use Rattle.packet_header.specs.declared.packet.Kind.TheVariants.{Request};
ghost use Rattle.buffer_pool.specs.Pool.{filled, lowest_empty, spare_of};
ghost use Rattle.rpc_base.specs.declared.owner.Owner.TheVariants.{Ask};
ghost use Rattle.client_core.specs.Session.{IsInTurn, can_post, known_of};
ghost use Rattle.client_core.specs.Watching.{is_after, told};
ghost use Rattle.rpc_laws.specs.ClientTable.{is_of_turn, is_same_size};
ghost use Rattle.client_core.specs.KeepsPool.{IsKept};
ghost use Rattle.client_core.specs.Replies.{call_row, end_of, replied, size_told};
ghost use Rattle.client_core.specs.Timeouts.{call_timer, is_late, rolled_call};
ghost use Rattle.client_core.specs.Posting.{entry_at, entry_of, head_of, marked, one_left};
ghost use Rattle.client_core.specs.Posting.{place_of, started};

use crate::active::Active;
use buffer_pool::BufferPool;
use packet_header::{Kind, Life, MessageHeader, count};
use packet_rings::Entry;
use rpc_base::{
    CallNo, DropReason, Owner, PART_BYTES, Peer, Place, RequestNo, SESSION_NUMBERS, SessionNo,
};
use rpc_laws::{ClientRow, EndRow, TimerRow};
use session_slots::Waiting;

/// How often a call is rolled back without a reply before its session breaks.
pub const MOST_ROLLS: u8 = 8;

/// A call that began and isn't over. What posting and the client table read of its buffers stands
/// here, so that they read no buffer.
#[derive(Clone, Copy, Debug)]
pub struct ActiveCall {
    pub call: CallNo,
    pub tag: u64,
    pub req_type: u8,
    pub request: RequestNo,
    /// Where the pool has the request, and where the buffer for the answer.
    pub ask: Place,
    pub answer: Place,
    /// The size of the request, in bytes.
    pub len: u32,
    /// The room for the answer, in bytes.
    pub room: u32,
    /// Replies taken in turn.
    pub got: u16,
    /// One more than the number of the packet posted last, or `got` after a rollback.
    pub posted: u16,
    /// Packets that were posted and are neither sent nor flushed.
    pub queued: u16,
    /// Rollbacks since the last reply was taken.
    pub rolls: u8,
    /// The clock, in microseconds, when packet `got` was sent last or a reply was taken last.
    pub mark: u64,
    /// The size of the answer in bytes, from its first packet on.
    pub size: Option<u32>,
}

impl ActiveCall {
    /// The waiting call begins as this request: its buffers go to the two lowest empty places of
    /// the pool, and nothing is posted or taken.
    pub fn start(request: RequestNo, waiting: Waiting, pool: &mut BufferPool) -> ActiveCall
        requires { 2 ≤ spare_of pool.old }
        ensures call { result ≡ started waiting request result.ask result.answer }
        ensures ask { lowest_empty pool.old ≡ Some result.ask }
        ensures answer { lowest_empty (filled result.ask waiting.req pool.old)
            ≡ Some result.answer }
        ensures pool { pool.new ≡ filled result.answer waiting.resp
            (filled result.ask waiting.req pool.old) }
        ensures kept { IsKept pool.new result }
    {
        let ask = pool.put(waiting.req);
        let answer = pool.put(waiting.resp);
        ActiveCall {
            call: waiting.call,
            tag: waiting.tag,
            req_type: waiting.req_type,
            request,
            ask,
            answer,
            len: pool.get(ask).len(),
            room: pool.get(answer).capacity(),
            got: 0,
            posted: 0,
            queued: 0,
            rolls: 0,
            mark: 0,
            size: None,
        }
    }

    /// How many packets the call is known to have: those of the request and, once the answer's size
    /// is known, one for each further packet of the answer.
    pub fn known(&self) -> u32
        ensures { result ≡ known_of self.now }
    {
        match self.size {
            Some(size) => count(self.len) + count(size) - 1,
            None => count(self.len),
        }
    }

    /// Whether the call has a packet that may be posted.
    pub fn can_post(&self) -> bool
        ensures { result ≡ can_post self.now }
    {
        u32::from(self.posted) < self.known()
    }

    /// The call once one of its packets is queued no more.
    pub fn left(self) -> ActiveCall
        ensures { result ≡ one_left self }
    {
        ActiveCall {
            queued: self.queued.saturating_sub(1),
            ..self
        }
    }

    /// The call once its packet of this number was sent at `now`: its clock starts anew where it
    /// wants the answer of that packet.
    pub fn marked(self, number: u16, now: u64) -> ActiveCall
        ensures { result ≡ marked number now self }
    {
        let sent = self.left();
        if sent.got == number {
            ActiveCall { mark: now, ..sent }
        } else {
            sent
        }
    }

    /// What is told of the call.
    pub fn told(&self) -> Active
        ensures { result ≡ told self.now }
    {
        Active {
            call: self.call,
            request: self.request,
            got: self.got,
            posted: self.posted,
        }
    }

    /// Whether the call has a number above `after`, if that is given.
    pub fn is_after(&self, after: &Option<CallNo>) -> bool
        ensures { result ≡ is_after after.now self.now }
    {
        match after {
            Some(number) => self.call.0 > number.0,
            None => true,
        }
    }

    /// Whose packets the call's are, in the session of this number.
    pub fn owner(&self, session: SessionNo) -> Owner
        ensures { result ≡ Ask session self.now.request }
    {
        Owner::Ask {
            session,
            request: self.request,
        }
    }

    /// What the client table says of a reply to the call. `is_waiting` tells whether the call's
    /// packet of the reply's number is queued.
    pub fn row(&self, head: &MessageHeader, body_len: usize, is_waiting: bool) -> ClientRow
        ensures { result ≡ call_row is_waiting head.now body_len self.now }
    {
        if head.number < self.got {
            return ClientRow::Drops(DropReason::Past);
        }
        if head.number > self.got || head.number >= self.posted {
            return ClientRow::Drops(DropReason::Ahead);
        }
        if !self.is_of_turn(head, body_len) {
            return ClientRow::Drops(DropReason::Mismatch);
        }
        if is_waiting {
            return ClientRow::Drops(DropReason::Queued);
        }
        ClientRow::Takes
    }

    // Before the last packet of the request a CR answers; from then on the parts of the answer.
    fn is_of_turn(&self, head: &MessageHeader, body_len: usize) -> bool
        ensures { result ≡ is_of_turn (packet_count self.now.len) self.now.req_type self.now.size
            head.now body_len }
    {
        let next = u32::from(head.number) + 1;
        let asked = count(self.len);
        if next < asked {
            return head.kind.is_cr();
        }
        head.kind.is_response()
            && head.req_type == self.req_type
            && is_as_told(self.size, head.size)
            && body_len == part_bytes(head.size, next - asked)
    }

    /// How the call stands once this reply to it was taken.
    pub fn end_row(&self, head: &MessageHeader) -> EndRow
        requires { IsInTurn self.now }
        ensures { result ≡ end_of head.now self.now }
    {
        let Some(size) = told_by(self.size, head) else {
            return EndRow::GoesOn;
        };
        if self.size.is_none() && self.room < size {
            return EndRow::EndsTooSmall(size);
        }
        if u32::from(self.got) + 1 == count(self.len) + count(size) - 1 {
            return EndRow::EndsOk;
        }
        EndRow::GoesOn
    }

    /// The call once this reply to it was taken at `now`: one more in turn, no rollback since, and
    /// the mark is now. The first part of the answer tells its size.
    pub fn replied(self, head: &MessageHeader, now: u64) -> ActiveCall
        requires { self.got < self.posted }
        ensures { result ≡ replied now head.now self }
    {
        ActiveCall {
            got: self.got + 1,
            rolls: 0,
            mark: now,
            size: told_by(self.size, head),
            ..self
        }
    }

    /// Whether the call's clock says at `now`, with this timeout, both in microseconds, that it
    /// timed out: it has an unanswered packet, and its mark is a timeout old.
    pub fn is_late(&self, now: u64, timeout: u64) -> bool
        ensures { result ≡ is_late now timeout self.now }
    {
        self.got < self.posted && now.saturating_sub(self.mark) >= timeout
    }

    /// What the timer rule says of the call at `now`, with this timeout, both in microseconds.
    /// `is_waiting` tells whether the call's packet `got` is queued.
    pub fn timer(&self, now: u64, is_waiting: bool, timeout: u64) -> TimerRow
        ensures { result ≡ call_timer now timeout is_waiting self.now }
    {
        if is_waiting || !self.is_late(now, timeout) {
            return TimerRow::Waits;
        }
        if self.rolls < MOST_ROLLS {
            return TimerRow::RollsBack;
        }
        TimerRow::Breaks
    }

    /// The call once it was rolled back: its packets from the first unanswered one on are to be
    /// posted again.
    pub fn rolled(self) -> ActiveCall
        requires { self.rolls < 8 }
        ensures { result ≡ rolled_call self }
    {
        ActiveCall {
            posted: self.got,
            rolls: self.rolls + 1,
            ..self
        }
    }

    /// Where the bytes of the call's packet are. A request for a part of the answer has none.
    pub fn place_of(&self, number: u16) -> Option<Place>
        ensures { result ≡ place_of self.now number }
    {
        if u32::from(number) < count(self.len) {
            Some(self.ask)
        } else {
            None
        }
    }

    /// The entry of one of the call's packets.
    pub fn entry(&self, session: SessionNo, number: u16, peer: Peer) -> Entry
        ensures { result ≡ entry_at session peer number self.now }
    {
        Entry {
            owner: self.owner(session),
            number,
            place: self.place_of(number),
            peer,
        }
    }

    /// The entry of the call's next packet.
    pub fn next_entry(&self, session: SessionNo, peer: Peer) -> Entry
        ensures { result ≡ entry_of session peer self.now }
    {
        self.entry(session, self.posted, peer)
    }

    /// The header of a packet that the call posted: a part of the request, and from then on a
    /// request for a part of the answer. It goes to the server session in this life of its
    /// endpoint, which isn't 0.
    pub fn head(&self, server: SessionNo, life: Life, number: u16) -> MessageHeader
        requires turn { IsInTurn self.now }
        requires posted { number < self.now.posted }
        requires server { server < SESSION_NUMBERS }
        requires life { 1 ≤ life }
        ensures head { result ≡ head_of server life number self.now }
        ensures in_range { MessageInRange result }
    {
        if u32::from(number) < count(self.len) {
            part_head(self.req_type, self.len, server, life, number, self.request)
        } else {
            MessageHeader {
                kind: Kind::Rfr,
                req_type: 0,
                size: 0,
                session: server,
                number,
                request: self.request,
                to_life: life,
            }
        }
    }
}

// Every later part of an answer has the size that its first one told.
fn is_as_told(told: Option<u32>, size: u32) -> bool
    ensures { result ≡ is_same_size told size }
{
    match told {
        None => true,
        Some(told) => told == size,
    }
}

// The size of the answer, as far as it is told once this reply came.
fn told_by(size: Option<u32>, head: &MessageHeader) -> Option<u32>
    ensures { result ≡ size_told size head.now }
{
    if head.kind.is_response() {
        Some(head.size)
    } else {
        size
    }
}

// The bytes of a part of a message, 0 past its end.
fn part_bytes(size: u32, index: u32) -> usize
    requires { index ≤ 2 ^ 16 }
    ensures { result ≡ part_size size index }
{
    size.saturating_sub(PART_BYTES * index).min(PART_BYTES) as usize
}

// The header of a part of a request.
fn part_head(
    req_type: u8,
    size: u32,
    session: SessionNo,
    life: Life,
    number: u16,
    request: RequestNo,
) -> MessageHeader
    requires size { IsMessage size }
    requires session { session < SESSION_NUMBERS }
    requires life { 1 ≤ life }
    requires number { number < packet_count size }
    ensures head { result ≡ record {
      kind = Request;
      req_type = req_type;
      size = size;
      session = session;
      number = number;
      request = request;
      to_life = life;
    } }
    ensures in_range { MessageInRange result }
{
    MessageHeader {
        kind: Kind::Request,
        req_type,
        size,
        session,
        number,
        request,
        to_life: life,
    }
}

impl Default for ActiveCall {
    // No call: what stands in the places of a list that has fewer calls than places.
    fn default() -> Self {
        ActiveCall {
            call: CallNo(0),
            tag: 0,
            req_type: 0,
            request: RequestNo::of(0, 0),
            ask: Place(0),
            answer: Place(0),
            len: 0,
            room: 0,
            got: 0,
            posted: 0,
            queued: 0,
            rolls: 0,
            mark: 0,
            size: None,
        }
    }
}
