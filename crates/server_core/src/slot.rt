//! What a session keeps of the newest request of a slot.
ghost use Rattle.std.specs.Prelude.{◌≡◌, ◌<◌, ◌≤◌, ◌↔◌, IsTrue, false, option_map};
ghost use Rattle.packet_header.specs.Header.{MessageInRange};
ghost use Rattle.packet_header.specs.declared.packet.Kind.TheVariants.{Response};
ghost use Rattle.rpc_laws.specs.ServerTable.{is_mismatch, is_past_end, is_worked_on, makes_job};
ghost use Rattle.rpc_laws.specs.ServerTable.{own_row};
ghost use Rattle.rpc_laws.specs.Service.{is_mode_background};
ghost use Rattle.server_core.specs.KeepsPool.{IsKept};
ghost use Rattle.server_core.specs.Replies.{CanHold, answer_size, entry_at, has_reply, head_of};
ghost use Rattle.server_core.specs.Replies.{place_of};
ghost use Rattle.server_core.specs.Rows.{as_newest};
ghost use Rattle.server_core.specs.Serving.{IsUnheld, first_answered, first_given, last_given};
ghost use Rattle.server_core.specs.Serving.{one_left, worked};
ghost use Rattle.server_core.specs.Session.{IsInTurn, answer_of, ask_of, is_at_work};
ghost use Rattle.server_core.specs.Session.{owner_of};
ghost use Rattle.packet_header.specs.Parts.{IsMessage};

use buffer_pool::BufferPool;
use packet_header::{Kind, Life, MessageHeader, count};
use packet_rings::Entry;
use rpc_base::{
    DropReason, MOST_REFERENCES, Owner, Peer, Place, RequestNo, SESSION_NUMBERS, SessionNo,
};
use rpc_laws::ServerRow;
use rpc_outside::Mode;

/// A message in the pool.
#[derive(Clone, Copy)]
pub struct Stored {
    /// Its place.
    pub place: Place,
    /// Its size, in bytes.
    pub size: u32,
    /// Whether its buffer is the slot's own.
    pub own: bool,
}

/// What a request waits for. A request of one packet begins as `Working`.
///
/// ```text
/// Taking -- its last packet --> Working -- its handler ran --> Answered
/// ```
#[derive(Clone, Copy)]
pub enum SlotState {
    /// Packets of it are to come. The pool has its bytes at this place.
    Taking { ask: Place },
    /// All its packets came. A worker has it with its bytes, or its handler runs.
    Working,
    /// Its answer is there, and its bytes are given up.
    Answered { answer: Stored },
}

/// The newest request of a slot. What the server table reads of its buffers stands here, so that it
/// reads no buffer.
#[derive(Clone, Copy)]
pub struct SlotRequest {
    pub number: RequestNo,
    pub req_type: u8,
    /// The size of the request, in bytes.
    pub size: u32,
    /// Client packets taken in turn.
    pub taken: u16,
    /// Replies that are neither sent nor flushed.
    pub queued: u32,
    pub state: SlotState,
}

impl SlotRequest {
    /// A request that begins with its only packet, and that a worker has with its bytes.
    pub fn given(head: &MessageHeader) -> SlotRequest
        ensures { result ≡ first_given head.now }
    {
        SlotRequest {
            number: head.request,
            req_type: head.req_type,
            size: head.size,
            taken: 1,
            queued: 0,
            state: SlotState::Working,
        }
    }

    /// A request that begins with its only packet, and has its answer at once, whose reply is
    /// queued.
    pub fn answered(head: &MessageHeader, answer: &Stored) -> SlotRequest
        ensures { result ≡ first_answered head.now answer.now }
    {
        SlotRequest {
            number: head.request,
            req_type: head.req_type,
            size: head.size,
            taken: 1,
            queued: 1,
            state: SlotState::Answered { answer: *answer },
        }
    }

    /// The request once its last packet was taken, and a worker or its handler has it with its
    /// bytes.
    pub fn last_given(self) -> SlotRequest
        requires { self.taken < u16.MAX }
        ensures { result ≡ last_given self }
    {
        SlotRequest {
            taken: self.taken + 1,
            state: SlotState::Working,
            ..self
        }
    }

    /// The request once its answer is there, and the reply to its last packet is queued.
    pub fn worked(self, answer: &Stored) -> SlotRequest
        requires { self.queued < MOST_REFERENCES }
        ensures { result ≡ worked answer.now self }
    {
        SlotRequest {
            queued: self.queued + 1,
            state: SlotState::Answered { answer: *answer },
            ..self
        }
    }

    /// Where the pool has the bytes of the request, as long as packets of it are to come.
    pub fn ask(&self) -> Option<Place>
        ensures { result ≡ ask_of self.now.state }
    {
        match self.state {
            SlotState::Taking { ask } => Some(ask),
            SlotState::Working => None,
            SlotState::Answered { answer: _ } => None,
        }
    }

    /// Whether a worker has the request, or its handler runs.
    pub fn is_working(&self) -> bool
        ensures { result ≡ is_at_work self.now.state }
    {
        matches!(self.state, SlotState::Working)
    }

    /// The answer, once it is there.
    pub fn answer(&self) -> Option<Stored>
        ensures { result ≡ answer_of self.now.state }
    {
        match self.state {
            SlotState::Taking { ask: _ } => None,
            SlotState::Working => None,
            SlotState::Answered { answer } => Some(answer),
        }
    }

    /// Whose packets the replies to the request are, in the session of this number.
    pub fn owner(&self, session: SessionNo) -> Owner
        ensures { result ≡ owner_of session self.now }
    {
        Owner::Reply {
            session,
            request: self.number,
        }
    }

    /// What the server table says of a Request or RFR of the request's own number. `mode` is that
    /// of its type, and `jobs_full` tells whether the node's jobs are full.
    pub fn row(&self, head: &MessageHeader, mode: Mode, jobs_full: bool) -> ServerRow
        requires { IsInTurn self.now }
        ensures { result ≡ own_row mode jobs_full false (as_newest self.now) head.now }
    {
        if self.is_mismatch(head) {
            return ServerRow::Drops(DropReason::Mismatch);
        }
        if head.number > self.taken {
            return ServerRow::Drops(DropReason::Ahead);
        }
        if head.number < self.taken {
            if self.is_worked_on(head.number) {
                return ServerRow::Drops(DropReason::Working);
            }
            return ServerRow::Repeats;
        }
        if head.kind.is_rfr() && self.is_past(head.number) {
            return ServerRow::Drops(DropReason::Beyond);
        }
        if makes_job(head, mode) && jobs_full {
            return ServerRow::Drops(DropReason::JobsFull);
        }
        ServerRow::Takes
    }

    // Whether a worker has the request whose last packet this is.
    fn is_worked_on(&self, number: u16) -> bool
        ensures { result ≡ is_worked_on (as_newest self.now) number }
    {
        u32::from(number) + 1 == count(self.size) && self.is_working()
    }

    /// Whether a packet of the request was taken and has its reply. That to the last one is to come
    /// where a worker has the request.
    pub fn has_reply(&self, number: u16) -> bool
        ensures { result ≡ has_reply self.now number }
    {
        number < self.taken && !self.is_worked_on(number)
    }

    // A part of another message, or a request for a part of the answer before its first one.
    fn is_mismatch(&self, head: &MessageHeader) -> bool
        ensures { result ≡ is_mismatch (as_newest self.now) head.now }
    {
        if head.kind.is_rfr() {
            u32::from(head.number) < count(self.size)
        } else {
            !(head.req_type == self.req_type && head.size == self.size)
        }
    }

    // Whether the answer has no part that a packet of this number asks for.
    fn is_past(&self, number: u16) -> bool
        requires { IsInTurn self.now }
        ensures { result ≡ is_past_end self.now.size (as_newest self.now).answer number }
    {
        match self.answer() {
            None => true,
            Some(answer) => count(self.size) + count(answer.size) <= u32::from(number) + 1,
        }
    }

    /// Where the bytes of the reply to the request's packet are. A credit return has none.
    pub fn place_of(&self, number: u16) -> Option<Place>
        ensures { result ≡ place_of self.now number }
    {
        if u32::from(number) + 1 < count(self.size) {
            return None;
        }
        self.answer_place()
    }

    /// Where the pool has the answer, if it is there.
    pub fn answer_place(&self) -> Option<Place>
        ensures { result ≡ option_map (λ a. a.place) (answer_of self.now.state) }
    {
        match self.answer() {
            None => None,
            Some(answer) => Some(answer.place),
        }
    }

    /// The entry of the reply to one of the request's packets.
    pub fn entry(&self, session: SessionNo, number: u16, peer: Peer) -> Entry
        ensures { result ≡ entry_at session peer number self.now }
    {
        Entry {
            owner: self.owner(session),
            number,
            place: self.place_of(number),
            peer,
        }
    }

    /// Whether one reply more can be queued: its reference to the answer can be counted, and
    /// itself.
    pub fn can_hold(&self, pool: &BufferPool) -> bool
        requires { IsKept pool.now self.now }
        ensures { IsTrue result ↔ CanHold pool.now self.now }
    {
        if self.queued >= u32::MAX - 1 {
            return false;
        }
        match self.answer() {
            None => true,
            Some(answer) => pool.refs(answer.place) < u32::MAX,
        }
    }

    /// The request once one of its replies was sent, or taken out unsent.
    pub fn left(self) -> SlotRequest
        ensures { result ≡ one_left self }
    {
        SlotRequest {
            queued: self.queued.saturating_sub(1),
            ..self
        }
    }

    /// Whether no reference is left to the answer.
    pub fn is_unheld(&self, pool: &BufferPool) -> bool
        requires { IsKept pool.now self.now }
        ensures { IsTrue result ↔ IsUnheld pool.now self.now }
    {
        match self.answer() {
            None => true,
            Some(answer) => pool.refs(answer.place) == 0,
        }
    }

    // The size of the answer, 0 where there is none yet.
    fn answer_size(&self) -> u32
        ensures { result ≡ answer_size (answer_of self.now.state) }
    {
        match self.answer() {
            None => 0,
            Some(answer) => answer.size,
        }
    }

    /// The header of the reply to a packet that was taken: a credit return before the last packet
    /// of the request, and from then on the parts of the answer. `life` is the client's.
    pub fn head(&self, client: SessionNo, life: Life, number: u16) -> MessageHeader
        requires turn { IsInTurn self.now }
        requires taken { number < self.now.taken }
        requires there { is_worked_on (as_newest self.now) number ≡ false }
        requires client { client < SESSION_NUMBERS }
        requires alive { 1 ≤ life }
        ensures head { result ≡ head_of client life number self.now }
        ensures in_range { MessageInRange result }
    {
        if u32::from(number) + 1 < count(self.size) {
            MessageHeader {
                kind: Kind::Cr,
                req_type: 0,
                size: 0,
                session: client,
                number,
                request: self.number,
                to_life: life,
            }
        } else {
            let size = self.answer_size();
            answer_head(self.req_type, size, client, number, self.number, life)
        }
    }
}

// The header of a part of an answer.
fn answer_head(
    req_type: u8,
    size: u32,
    session: SessionNo,
    number: u16,
    request: RequestNo,
    to_life: Life,
) -> MessageHeader
    requires size { IsMessage size }
    requires session { session < SESSION_NUMBERS }
    requires number { number ≤ 2046 }
    requires alive { 1 ≤ to_life }
    ensures head { result ≡ record {
      kind = Response;
      req_type = req_type;
      size = size;
      session =
          session;
      number = number;
      request = request;
      to_life = to_life;
    } }
    ensures in_range { MessageInRange result }
{
    MessageHeader {
        kind: Kind::Response,
        req_type,
        size,
        session,
        number,
        request,
        to_life,
    }
}

/// Whether requests of a mode are given to a worker.
pub fn is_background(mode: Mode) -> bool
    ensures { result ≡ is_mode_background mode }
{
    matches!(mode, Mode::Background)
}

/// Whether a packet makes a background job: the last one of a request whose mode is Background.
pub fn makes_job(head: &MessageHeader, mode: Mode) -> bool
    ensures { result ≡ makes_job mode head.now }
{
    head.is_last() && is_background(mode)
}

impl Default for SlotRequest {
    // No request: what stands in the places of a list that has fewer requests than places.
    fn default() -> Self {
        SlotRequest {
            number: RequestNo::of(0, 0),
            req_type: 0,
            size: 0,
            taken: 0,
            queued: 0,
            state: SlotState::Working,
        }
    }
}
