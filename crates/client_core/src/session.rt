//! A client session: its calls begin and post here. What replies and timeouts do to them stands in
//! the modules below.
ghost use Rattle.std.specs.Prelude.{◌≡◌, ◌<◌, ◌≤◌, ◌+◌, ◌↔◌, ℕ, [], ◌∷◌};
ghost use Rattle.std.specs.Prelude.{false, length, IfErr};
ghost use Rattle.std.specs.Prelude.{◌-◌, IsNone, IsTrue, OnErr, OnOk, option_copied};
ghost use Rattle.std.specs.Prelude.{slice_get};
ghost use Rattle.std.specs.List.{list_any};
ghost use Rattle.memory_count.specs.Faults.{HasCause};
ghost use Rattle.packet_header.specs.Header.{AreBytes};
ghost use Rattle.buffer_pool.specs.Pool.{Pool, spare_of};
ghost use Rattle.credit_book.specs.Credits.{limit_of};
ghost use Rattle.client_core.specs.Effects.{BeginsNext, Flushes, Posts, Sends, Waits};
ghost use Rattle.client_core.specs.KeepsPool.{CanHold, KeepsPool};
ghost use Rattle.client_core.specs.Posting.{IsPacketOf, call_of, posted};
ghost use Rattle.client_core.specs.Replies.{call_as};
ghost use Rattle.client_core.specs.Session.{IsSession, bytes_in, new_session};
ghost use Rattle.client_core.specs.Session.{queued_in};
ghost use Rattle.client_core.specs.Shown.{asked, packet_of, paired};
ghost use Rattle.client_core.specs.Shown.{shown};
ghost use Rattle.client_core.specs.Watching.{is_after, next_told};
ghost use Rattle.client_core.specs.Keeping.{MayLeave};
ghost use Rattle.rpc_laws.specs.Packets.{IsSpelled};

mod conditions;
mod connecting;
mod reply;
mod timeout;

use crate::active::Active;
use crate::call::ActiveCall;
use crate::calls::Calls;
use buffer_pool::BufferPool;
use credit_book::CreditBook;
use memory_count::Memory;
use packet_header::{Life, Packet, encode};
use packet_rings::Entry;
use rpc_base::{
    CallNo, HEAD_BYTES, MOST_CALLS, MOST_CREDITS, MOST_MESSAGE_BYTES, Peer, RequestNo,
    SESSION_NUMBERS, SessionNo,
};
use session_slots::{SlotTable, Waiting};
use std::alloc::Global;
use std::marker::Model;

/// The calls of one client session. Contracts see its numbers, its credits, its slots with the
/// calls that wait for one, and its active calls, oldest first.
#[derive(Drop)]
pub struct ClientSession {
    number: SessionNo,
    server: SessionNo,
    // The life of the server's endpoint.
    life: Life,
    credits: CreditBook,
    slots: SlotTable,
    calls: Calls,
    waiting: u64,
}

impl Model for ClientSession {
    ghost use Rattle.std.specs.Prelude.{◌≡◌, length};
    ghost use Rattle.client_core.specs.Session.{Session, IsSession};

    ghost Value = { Session };

    ghost view = { λ s. record {
      number = s.number;
      server = s.server;
      life = s.life;
      credits = s.credits;
      slots = s.slots;
      active = s.calls;
    } };

    ghost invariant = { λ s. (s.waiting ≡ length s.slots.waiting) × IsSession (record {
      number = s.number;
      server = s.server;
      life = s.life;
      credits = s.credits;
      slots = s.slots;
      active = s.calls;
    }) };
}

impl ClientSession {
    /// A session with no call, by its number here and at the server, each below 65,535, with a
    /// server's endpoint of this life, which isn't 0. All its `credits`, 1 to 256, are free. It
    /// takes no memory yet.
    pub fn new(
        alloc: Global,
        session: SessionNo,
        server: SessionNo,
        life: Life,
        credits: u16,
    ) -> ClientSession
        requires session { session < SESSION_NUMBERS }
        requires server { server < SESSION_NUMBERS }
        requires life { 1 ≤ life }
        requires some { 1 ≤ credits }
        requires most { credits ≤ MOST_CREDITS }
        ensures session { result ≡ new_session session server life credits }
        ensures keeps_pool { (pool : Pool) → KeepsPool pool result.active }
        ensures step { (pool : Pool) → (clock peer : ℕ)
            → paired clock session server peer credits life ≡ shown pool peer result ∷ [] }
    {
        ClientSession {
            number: session,
            server,
            life,
            credits: CreditBook::new(credits),
            slots: SlotTable::new(alloc),
            calls: Calls::new(),
            waiting: 0,
        }
    }

    /// The session's number here.
    pub fn session(&self) -> SessionNo
        ensures { result ≡ self.now.number }
    {
        self.number
    }

    /// The session's number at the server.
    pub fn server(&self) -> SessionNo
        ensures { result ≡ self.now.server }
    {
        self.server
    }

    /// The life of the server's endpoint.
    pub fn life(&self) -> Life
        ensures { result ≡ self.now.life }
    {
        self.life
    }

    /// How many credits are free.
    pub fn free(&self) -> u16
        ensures free { result ≡ self.now.credits.free }
        ensures sound { IsSession self.now }
    {
        self.credits.free()
    }

    /// How many credits there are in all, 1 to 256: those that are free, and those of the
    /// unanswered packets of the eight slots.
    pub fn limit(&self) -> u16
        ensures { result ≡ limit_of self.now.credits }
    {
        let mut limit = self.credits.free();
        limit += self.credits.unanswered(0);
        limit += self.credits.unanswered(1);
        limit += self.credits.unanswered(2);
        limit += self.credits.unanswered(3);
        limit += self.credits.unanswered(4);
        limit += self.credits.unanswered(5);
        limit += self.credits.unanswered(6);
        limit + self.credits.unanswered(7)
    }

    /// How many calls are active or wait.
    pub fn pending(&self) -> u64
        ensures pending { result ≡ length self.now.active + length self.now.slots.waiting }
        ensures sound { IsSession self.now }
    {
        self.calls.len() as u64 + self.waiting
    }

    /// How many calls `enqueue` has taken, 0 to 2^45.
    pub fn asked(&self) -> u64
        ensures asked { result ≡ self.now.slots.taken }
        ensures sound { IsSession self.now }
    {
        self.slots.taken()
    }

    /// The call waits behind all others. Its request has at most 1,048,576 bytes, and fewer than
    /// 2^45 calls were taken before. Err comes only where memory was refused, and hands the call
    /// back.
    pub fn enqueue(&mut self, memory: &mut Memory, w: Waiting) -> Result<(), Waiting>
        requires message { w.req.len ≤ MOST_MESSAGE_BYTES }
        requires turns { self.old.slots.taken < MOST_CALLS }
        ensures waits { OnOk result (Waits w self.old self.new) }
        ensures unchanged { OnErr result (self.new ≡ self.old) }
        ensures handed_back { IfErr result (λ back. back ≡ w) }
        ensures cause { HasCause memory.old memory.new result }
    {
        self.slots.wait(memory, w)?;
        self.waiting += 1;
        Ok(())
    }

    /// The call that `enqueue` took last, where it waits. None comes exactly where no call waits.
    pub fn newest(&self) -> Option<&Waiting>
        ensures { option_copied result
            ≡ slice_get self.now.slots.waiting (length self.now.slots.waiting - 1) }
    {
        self.slots.newest()
    }

    /// The call that waited longest begins in the lowest free slot, and its buffers go into the
    /// pool, which has to have two empty places. None comes exactly where no call waits or no slot
    /// is free.
    pub fn begin(&mut self, pool: &mut BufferPool) -> Option<(CallNo, RequestNo)>
        requires keeps_pool { KeepsPool pool.old self.old.active }
        requires spare { 2 ≤ spare_of pool.old }
        ensures { BeginsNext result self.old self.new pool.old pool.new }
    {
        let Some((request, waiting)) = self.slots.begin() else {
            return None;
        };
        let call = ActiveCall::start(request, waiting, pool);
        let begun = (call.call, request);
        self.waiting -= 1;
        self.calls.push(call);
        Some(begun)
    }

    /// Whether one reference more can be counted to each active call's request, as `post` wants it.
    pub fn can_hold(&self, pool: &BufferPool) -> bool
        requires keeps_pool { KeepsPool pool.now self.now.active }
        ensures { IsTrue result ↔ CanHold pool.now self.now.active }
    {
        self.calls.can_hold(pool)
    }

    /// The oldest active call that may post posts its next packet, where a credit is free: it takes
    /// the credit, and a reference to the place of its bytes if it has any. None comes exactly
    /// where no call has a packet to post or no credit is free.
    pub fn post(&mut self, pool: &mut BufferPool, peer: Peer) -> Option<Entry>
        requires keeps_pool { KeepsPool pool.old self.old.active }
        requires can_hold { CanHold pool.old self.old.active }
        ensures { Posts peer result self.old self.new pool.old pool.new }
    {
        if self.credits.free() == 0 {
            return None;
        }
        let Some(call) = self.calls.post_next() else {
            return None;
        };
        let entry = call.next_entry(self.number, peer);
        pool.hold_at(entry.place);
        self.credits.charge(call.request.slot());
        Some(entry)
    }

    /// The active call of least number, above `after` if that is given. None comes exactly where
    /// there is none. So the calls are told one by one, in the order of their numbers.
    pub fn active(&self, after: Option<CallNo>) -> Option<Active>
        ensures told { result ≡ next_told after self.now }
        ensures none { IsNone result ↔ (list_any (is_after after) self.now.active ≡ false) }
    {
        match self.calls.least(&after) {
            Some(call) => Some(call.told()),
            None => None,
        }
    }

    /// An entry that was posted is sent: its reference is given up. Where it is the call's packet
    /// whose answer is wanted next, the call's clock starts anew at `now`, in microseconds.
    pub fn sent(&mut self, pool: &mut BufferPool, entry: &Entry, now: u64)
        requires { MayLeave entry.now self.old pool.old }
        ensures { Sends entry.now now self.old self.new pool.old pool.new }
    {
        pool.release_at(entry.place);
        self.calls.mark(self.number, entry.owner, entry.number, now);
    }

    /// An entry that was posted is taken out unsent: its reference is given up.
    pub fn flushed(&mut self, pool: &mut BufferPool, entry: &Entry)
        requires { MayLeave entry.now self.old pool.old }
        ensures { Flushes entry.now self.old self.new pool.old pool.new }
    {
        pool.release_at(entry.place);
        self.calls.leave(self.number, entry.owner);
    }

    /// How many packets of the active call with this request number were posted and are neither
    /// sent nor flushed. 0 where there is no such call.
    pub fn queued(&self, request: RequestNo) -> u16
        ensures { result ≡ queued_in (call_as request self.now) }
    {
        match self.calls.of_request(request) {
            Some(call) => call.queued,
            None => 0,
        }
    }

    /// How many bytes the active call with this request asks, 0 where there is none.
    pub fn bytes(&self, request: RequestNo) -> u32
        ensures { result ≡ bytes_in (call_as request self.now) }
    {
        match self.calls.of_request(request) {
            Some(call) => call.len,
            None => 0,
        }
    }

    /// What always holds of a session holds of this one.
    pub fn sound(&self)
        ensures { IsSession self.now }
    {
        let _number = self.number;
    }

    /// Writes the header of an entry that was posted, and lends its body.
    pub fn packet<'a>(
        &self,
        pool: &'a BufferPool,
        entry: &Entry,
        head: &mut [u8; HEAD_BYTES],
    ) -> &'a [u8]
        requires keeps_pool { KeepsPool pool.now self.now.active }
        requires posted { IsPacketOf (call_of self.now entry.now) entry.now }
        ensures spelled { IsSpelled (packet_of pool.now self.now entry.now) head.new result.now }
        ensures bytes { AreBytes head.new }
    {
        let Some(call) = self.calls.of_owner(self.number, entry.owner) else {
            unreachable!()
        };
        let header = call.head(self.server, self.life, entry.number);
        encode(&Packet::Message(header), head);
        match entry.place {
            None => &[],
            Some(place) => pool.get(place).packet(u32::from(entry.number)).1,
        }
    }
}
