//! The client sessions: calls are asked, begin and are answered.
ghost use Rattle.std.specs.Prelude.{◌≡◌, ◌<◌, ◌≤◌, ◌+◌, ◌*◌, [], length};
ghost use Rattle.std.specs.Prelude.{option_and_then, option_map, slice_get, IfErr, IfSome, OnErr};
ghost use Rattle.std.specs.Prelude.{IsOk, IsSome, List, OnOk};
ghost use Rattle.std.specs.List.{AllByRecursion, list_any};
ghost use Rattle.memory_count.specs.Faults.{HasCause};
ghost use Rattle.rpc_base.specs.declared.owner.Owner.TheVariants.{Ask};
ghost use Rattle.rpc_base.specs.declared.state.SessionState.TheVariants.{Connected};
ghost use Rattle.rpc_laws.specs.Groups.{state_of, told_state};
ghost use Rattle.node_laws.specs.Windows.{Windows};
ghost use Rattle.packet_header.specs.Header.{MessageInRange};
ghost use Rattle.packet_header.specs.Parts.{part_size};
ghost use Rattle.rpc_laws.specs.Queues.{is_queued};
ghost use Rattle.rpc_laws.specs.Calls.{asking};
ghost use Rattle.rpc_laws.specs.Pacing.{packet_size};
ghost use Rattle.rpc_laws.specs.Sessions.{asks, client_end};
ghost use Rattle.rpc_laws.specs.declared.tables.Asking.{Asking};
ghost use Rattle.rpc_laws.specs.declared.tables.Call.{Call};
ghost use Rattle.session_store.specs.Changes.{BeginsAt, ChangesAt, MayPace, MayQueue, PostsAt};
ghost use Rattle.session_store.specs.Effects.{asking_in, packet_of_entry, request_in};
ghost use Rattle.session_store.specs.Ends.{next_above, told_call};
ghost use Rattle.client_core.specs.Handing.{handed_waiting};
ghost use Rattle.session_store.specs.Handing.{AreOfCalls, HandsBackIf, HandsInAt, ended_by};
ghost use Rattle.session_store.specs.Hearing.{RepliesAt};
ghost use Rattle.session_store.specs.Joined.{put_listed};
ghost use Rattle.session_store.specs.Leaving.{ChangesCalls, ChangesClients, ChangesQueue};
ghost use Rattle.session_store.specs.Sides.{HasRoom};
ghost use Rattle.session_store.specs.Ends.{named};
ghost use Rattle.session_store.specs.Leaving.{MakesClient};

use super::Store;
use client_core::{Active, ClientSession, Reply};
use memory_count::{Memory, NoMemory};
use packet_header::{Life, MessageHeader};
use packet_rings::Entry;
use rpc_base::{
    CallNo, DropReason, HEAD_BYTES, MOST_CALLS, MOST_CREDITS, MOST_DATAGRAM_BYTES,
    MOST_MESSAGE_BYTES, MOST_SESSIONS, Owner, PART_BYTES, Peer, RequestNo, SESSION_NUMBERS,
    SessionNo, SessionState,
};
use session_ends::{Side, Stage, begin_at, enqueue_at, heard_at, post_at};
use session_slots::Waiting;

// The state of a session at this stage, on which so many calls were asked.
fn state_at(stage: &Stage, asked: u64) -> SessionState
    requires most { asked ≤ MOST_CALLS }
    ensures { result ≡ told_state (named stage.now) asked }
{
    match stage {
        Stage::Connecting { .. } => SessionState::Connecting,
        Stage::Connected => {
            if asked == MOST_CALLS {
                return SessionState::Spent;
            }
            SessionState::Connected
        }
        Stage::Closing { .. } => SessionState::Closing,
        Stage::Closed => SessionState::Closed,
        Stage::Failed => SessionState::Failed,
        Stage::Broken => SessionState::Broken,
    }
}

// How long the datagram of part `number` of a message of `size` bytes is.
fn datagram_size(size: u32, number: u16) -> u64
    ensures size { result ≡ HEAD_BYTES + part_size size number }
    ensures most { result ≤ MOST_DATAGRAM_BYTES }
{
    let rest = size.saturating_sub(PART_BYTES * u32::from(number));
    HEAD_BYTES as u64 + u64::from(rest.min(PART_BYTES))
}

impl Store {
    /// How many client sessions there are: no more than there are numbers of 16 bits.
    pub fn clients(&self) -> usize
        ensures count { result ≡ length self.now.clients }
        ensures few { result ≤ MOST_SESSIONS }
    {
        if let Some(last) = self.sides.last() {
            // Its number, of 16 bits, is its place.
            let _number = last.session.session();
        }
        self.sides.len()
    }

    /// What was handed in, as it is seen, is that of the calls which are seen.
    pub fn sound(&self)
        ensures handed { AreOfCalls self.now.handed self.now.clients }
    {
        let _count = self.sides.len();
    }

    /// A client session is made that is connected from the start, with 1 to 256 credits; its number
    /// is its place, the server's is below 65,535, and the life of the server's endpoint isn't 0.
    /// `NoMemory` comes only where memory was refused, and never while there are fewer client
    /// sessions than half as many as packets have room in the ring, those that are over included.
    pub fn pair_client(
        &mut self,
        memory: &mut Memory,
        peer: Peer,
        life: Life,
        server: SessionNo,
        credits: u16,
    ) -> Result<(), NoMemory>
        requires numbers { length self.old.clients < SESSION_NUMBERS }
        requires alive { 1 ≤ life }
        requires server { server < SESSION_NUMBERS }
        requires some { 1 ≤ credits }
        requires most { credits ≤ MOST_CREDITS }
        ensures made { MakesClient (client_end (length self.old.clients) peer server credits life)
            result self.old self.new }
        ensures succeeds { 2 * length self.old.clients < self.old.size → IsOk result }
        ensures cause { HasCause memory.old memory.new result }
    {
        let shares = self.shares_with(credits);
        let number = SessionNo(self.sides.len() as u16);
        let session = ClientSession::new(memory.alloc(), number, server, life, credits);
        let side = Side {
            peer,
            stage: Stage::Connected,
            session,
        };
        // There is room for the session before anything changes.
        memory.of(self.sides.reserve(1))?;
        self.sides.push(side).unwrap();
        self.shares = shares;
        Ok(())
    }

    /// The state of session `i`: that of its stage, but Spent where it is Connected and 2^45 calls
    /// were asked on it.
    pub fn state(&self, i: usize) -> SessionState
        requires known { i < length self.now.clients }
        ensures { result ≡ state_of (slice_get self.now.clients i) }
    {
        let side = &self.sides[i];
        state_at(&side.stage, side.session.asked())
    }

    /// How many credits of session `i` are free, none where it lost its peer.
    pub fn free(&self, i: usize) -> u16
        requires known { i < length self.now.clients }
        ensures { IfSome (slice_get self.now.clients i) (λ x. result ≡ x.free) }
    {
        let side = &self.sides[i];
        if side.stage.is_broken() {
            return 0;
        }
        side.session.free()
    }

    /// How many calls of session `i` are active or wait.
    pub fn pending(&self, i: usize) -> u64
        requires known { i < length self.now.clients }
        ensures { IfSome (slice_get self.now.clients i) (λ x. result ≡ length x.calls) }
    {
        self.sides[i].session.pending()
    }

    /// The active call of session `i` of least number, above `after` if that is given. None comes
    /// exactly where there is none.
    pub fn active(&self, i: usize, after: Option<CallNo>) -> Option<Active>
        requires known { i < length self.now.clients }
        ensures { IfSome (slice_get self.now.clients i)
            (λ x. result ≡ option_and_then told_call (next_above after x)) }
    {
        self.sides[i].session.active(after)
    }

    /// A call is asked on session `i`, which is Connected: it waits behind the session's others,
    /// whose numbers are lower. Its request has at most 1,048,576 bytes. Err comes only where
    /// memory was refused, and hands the call back.
    pub fn ask(&mut self, memory: &mut Memory, i: usize, waiting: Waiting) -> Result<(), Waiting>
        requires known { i < length self.old.clients }
        requires message { waiting.req.len ≤ MOST_MESSAGE_BYTES }
        requires connected { state_of (slice_get self.old.clients i) ≡ Connected }
        requires above { IfSome (slice_get self.old.clients i)
            (λ x. AllByRecursion (λ c. c.what.number < waiting.call) x.calls) }
        ensures asks { OnOk result (ChangesCalls (ChangesAt i (asks (asking_in waiting)))
            (HandsInAt i (handed_waiting waiting)) self.old self.new) }
        ensures unchanged { OnErr result (self.new ≡ self.old) }
        ensures handed_back { IfErr result (λ back. back ≡ waiting) }
        ensures cause { HasCause memory.old memory.new result }
    {
        enqueue_at(memory, &mut self.sides, i, waiting)
    }

    /// How long the datagram of this packet of an active call of session `i` is, in bytes.
    pub fn packet_size(&self, i: usize, request: RequestNo, number: u16) -> u64
        requires known { i < length self.now.clients }
        ensures size { IfSome (slice_get self.now.clients i)
            (λ x. result ≡ packet_size request number (Some x)) }
        ensures most { result ≤ MOST_DATAGRAM_BYTES }
    {
        datagram_size(self.sides[i].session.bytes(request), number)
    }

    /// The bytes of the newest call of session `i`, where it waits.
    pub fn newest_ask(&self, i: usize) -> &[u8]
        requires known { i < length self.now.clients }
        ensures { IfSome (slice_get self.now.clients i) (λ x. (calls : List Call) (what : Asking)
            → x.calls ≡ asking what calls → result.now ≡ what.ask) }
    {
        match self.sides[i].session.newest() {
            Some(waiting) => waiting.req.bytes(),
            None => &[],
        }
    }

    /// The call of session `i` that waited longest begins, where a slot is free. A session that
    /// isn't Connected begins none.
    pub fn begin(&mut self, i: usize) -> Option<(CallNo, RequestNo)>
        requires known { i < length self.old.clients }
        requires room { HasRoom self.old }
        ensures { ChangesClients (BeginsAt i result) self.old self.new }
    {
        if !self.sides[i].stage.is_connected() {
            return None;
        }
        begin_at(&mut self.sides, i, &mut self.pool)
    }

    /// Session `i` posts its next packet: it is put behind what is ready or, with a time in
    /// microseconds when it is due, behind what is due no later. A session that isn't Connected
    /// posts none.
    pub fn post(&mut self, i: usize, due: Option<u64>) -> Option<Entry>
        requires known { i < length self.old.clients }
        requires room { MayQueue i self.old }
        requires paced { IsSome due → MayPace i self.old }
        ensures posts { ChangesQueue (PostsAt i (option_map packet_of_entry result))
            (put_listed due result) self.old self.new }
        ensures owner { IfSome result (λ e. e.owner ≡ Ask i (request_in e.owner)) }
    {
        if !self.sides[i].stage.is_connected() {
            return None;
        }
        let posted = post_at(&mut self.sides, i, &mut self.pool);
        let Some(entry) = posted else {
            return None;
        };
        self.queue.put(due, entry);
        Some(entry)
    }

    /// Session `i` handles a CR or Response to one of its calls, which came from a peer at `now`,
    /// in microseconds.
    pub fn on_reply(
        &mut self,
        i: usize,
        peer: Peer,
        head: &MessageHeader,
        body: &[u8],
        now: u64,
    ) -> Reply
        requires known { i < length self.old.clients }
        requires in_range { MessageInRange head.now }
        requires session { head.now.session ≡ i }
        requires windows { Windows self.old.clients self.old.queued }
        ensures { ChangesCalls (RepliesAt i now peer head.now body.now (list_any
            (is_queued (Ask head.now.session head.now.request) head.now.number) self.old.queued)
            result) (HandsBackIf i (ended_by result)) self.old self.new }
    {
        if !self.sides[i].stage.is_connected() {
            return Reply::Dropped(DropReason::NoSession);
        }
        if peer != self.sides[i].peer {
            return Reply::Dropped(DropReason::WrongPeer);
        }
        let is_waiting = self.is_waiting(i, head.request, head.number);
        heard_at(
            &mut self.sides,
            i,
            &mut self.pool,
            head,
            body,
            is_waiting,
            now,
        )
    }

    // Whether this packet of a call of session `i` is queued. The ring and the pacer are looked at
    // only where its call has a packet there.
    #[inline(always)]
    pub(super) fn is_waiting(&self, i: usize, request: RequestNo, number: u16) -> bool
        requires known { i < length self.now.clients }
        ensures { result ≡ list_any (is_queued (Ask i request) number) self.now.queued }
    {
        if self.sides[i].session.queued(request) == 0 {
            return false;
        }
        let owner = Owner::Ask {
            session: self.sides[i].session.session(),
            request,
        };
        self.queue.holds(&owner, number)
    }
}
