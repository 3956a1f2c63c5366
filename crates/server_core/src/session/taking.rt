//! What a packet that is taken does: a request begins or goes on, and its handler runs after its
//! last packet.
ghost use Rattle.std.specs.Prelude.{◌≡◌, ◌≢◌, ◌<◌, ◌≤◌, [], ◌++◌, length, None};
ghost use Rattle.packet_header.specs.Parts.{packet_count, part_size};
ghost use Rattle.memory_count.specs.Faults.{HasRisenBy};
ghost use Rattle.message_buffer.specs.Buffer.{bytes_of, capacity_of};
ghost use Rattle.packet_rings.specs.Rings.{Ring};
ghost use Rattle.packet_rings.specs.Values.{EntryValue};
ghost use Rattle.rpc_laws.specs.declared.rows.ServerRow.TheVariants.{Begins, Takes};
ghost use Rattle.rpc_outside.specs.declared.service.Mode.TheVariants.{Unserved};
ghost use Rattle.server_core.specs.Handling.{DoesRow};
ghost use Rattle.server_core.specs.Keeping.{BeginsWithReply, GivesReply, StaysSound};
ghost use Rattle.server_core.specs.Lacks.{lacks_of};
ghost use Rattle.server_core.specs.Replies.{CanHold};
ghost use Rattle.server_core.specs.Scene.{at_desk};
ghost use Rattle.server_core.specs.Serving.{next_taken};
ghost use Rattle.server_core.specs.Session.{IsInTurn, IsSession, ask_of, newest};
ghost use Rattle.server_core.specs.Shown.{ask_in, shown};
ghost use Rattle.server_core.specs.Steps.{IsNextOf, begun_with, bytes_with, first_shown};
ghost use Rattle.server_core.specs.Steps.{gone_on_as, grown};
ghost use Rattle.server_core.specs.Wanting.{CanBegin, IsNewest, IsServing, MayBegin, MayTake};
ghost use Rattle.server_core.specs.declared.slot.SlotState.TheVariants.{Taking};

use super::ServerSession;
use crate::buffers::put_message;
use crate::running::{Room, make_answer, make_message, make_room};
use crate::slot::{SlotRequest, SlotState, is_background};
use crate::step::Step;
use buffer_pool::BufferPool;
use memory_count::Memory;
use message_buffer::MsgBuf;
use packet_header::{MessageHeader, count};
use packet_rings::{Entry, TxRing};
use rpc_base::{DropReason, PART_BYTES, Place, Who};
use rpc_outside::{Mode, Recorder, Service};
use worker_board::Parcel;

impl ServerSession {
    // A new request begins with this packet. Where it is the only one, its handler runs, or it goes
    // to a worker. The buffers are made first, and then the replies to the older request of the
    // slot are flushed. None is made for a short answer of a type that is handled inline.
    pub(super) fn begin<V: Service, R: Recorder>(
        &mut self,
        memory: &mut Memory,
        pool: &mut BufferPool,
        tx: &mut TxRing,
        service: &mut V,
        mode: Mode,
        head: &MessageHeader,
        body: &[u8],
        who: &Who,
        rec: &mut R,
    ) -> Step
        requires ready { MayBegin head.now (length body.now) self.old pool.old tx.old.items }
        requires served { mode ≢ Unserved }
        requires serving { IsServing V.Service mode head.now self.old service.old }
        ensures does { DoesRow V.Service R.log who.now mode Begins head.now body.now result
            (at_desk self.old pool.old tx.old service.old rec.old)
            (at_desk self.new pool.new tx.new service.new rec.new) }
        ensures cause { HasRisenBy (lacks_of result) memory.old memory.new }
    {
        if count(head.size) > 1 {
            let Ok(ask) = make_message(memory, head.size, body) else {
                return Step::Dropped(DropReason::NoMemory);
            };
            self.flush_older(pool, tx, head.request, who, rec);
            let reply = self.begin_first(pool, head, ask);
            return Step::Took { reply: Some(reply) };
        }
        if is_background(mode) {
            let Ok(room) = make_room(memory, service, head.req_type, body) else {
                return Step::Dropped(DropReason::NoMemory);
            };
            let Ok(ask) = make_message(memory, head.size, body) else {
                return Step::Dropped(DropReason::NoMemory);
            };
            self.flush_older(pool, tx, head.request, who, rec);
            self.begin_working(pool, head);
            return Step::Give(self.parcel(head, ask, room));
        }
        let Ok(room) = Room::of(memory, service.room(head.req_type, body)) else {
            return Step::Dropped(DropReason::NoMemory);
        };
        self.flush_older(pool, tx, head.request, who, rec);
        let answer = self.begin_inline(pool, head, room);
        let reply = self.run(pool, service, answer, head, body, who, rec);
        Step::Ran { reply }
    }

    // The job of a request that goes to a worker.
    fn parcel(&self, head: &MessageHeader, ask: MsgBuf, out: MsgBuf) -> Parcel
        ensures { result ≡ record {
          session = self.now.number;
          request =
              head.now.request;
          req_type = head.now.req_type;
          ask = ask;
          out = out;
        } }
    {
        Parcel {
            session: self.number,
            request: head.request,
            req_type: head.req_type,
            ask,
            out,
        }
    }

    // The next packet of a request is taken. After its last one the handler runs, or the request
    // goes to a worker. The buffer of the answer is made first, but for a short one of a type that
    // is handled inline.
    pub(super) fn take<V: Service, R: Recorder>(
        &mut self,
        memory: &mut Memory,
        pool: &mut BufferPool,
        service: &mut V,
        mode: Mode,
        head: &MessageHeader,
        body: &[u8],
        who: &Who,
        rec: &mut R,
    ) -> Step
        requires ready { MayTake head.now self.old pool.old }
        requires next { IsNextOf head.now (length body.now) (newest head.now.request self.old) }
        requires serving { IsServing V.Service mode head.now self.old service.old }
        // Whatever the ring is, which stays as it is.
        ensures does { (tx : Ring EntryValue) → DoesRow V.Service R.log who.now mode Takes
            head.now body.now result (at_desk self.old pool.old tx service.old rec.old)
            (at_desk self.new pool.new tx service.new rec.new) }
        ensures cause { HasRisenBy (lacks_of result) memory.old memory.new }
    {
        let Some(request) = self.newest(head.request) else {
            unreachable!()
        };
        if head.kind.is_rfr() {
            let reply = self.take_next(pool, request);
            return Step::Took { reply: Some(reply) };
        }
        let Some(place) = request.ask() else {
            unreachable!()
        };
        self.write_part(pool, &request, place, body);
        if u32::from(request.taken) + 1 < count(request.size) {
            let reply = self.take_next(pool, request);
            return Step::Took { reply: Some(reply) };
        }
        let whole = pool.get(place).bytes();
        let size = service.room(head.req_type, whole);
        if is_background(mode) {
            let Ok(room) = make_answer(memory, size) else {
                return Step::Dropped(DropReason::NoMemory);
            };
            let ask = self.take_working(pool, request, place);
            return Step::Give(self.parcel(head, ask, room));
        }
        let Ok(room) = Room::of(memory, size) else {
            return Step::Dropped(DropReason::NoMemory);
        };
        let ask = self.take_working(pool, request, place);
        let answer = self.put_room(pool, request.last_given(), room);
        let reply = self.run(pool, service, answer, head, ask.bytes(), who, rec);
        Step::Ran { reply }
    }

    // A new request of more packets than this one begins.
    fn begin_first(&mut self, pool: &mut BufferPool, head: &MessageHeader, ask: MsgBuf) -> Entry
        requires begins { CanBegin head.now self.old pool.old }
        requires many { 1 < packet_count head.now.size }
        requires len { ask.len ≡ head.now.size }
        requires room { ask.len ≤ capacity_of ask }
        ensures shown { shown pool.new self.new
            ≡ begun_with (first_shown head.now (bytes_of ask) None) (shown pool.old self.old) }
        ensures replies { BeginsWithReply head.now result self.old self.new pool.old pool.new }
    {
        self.slots.give_up(pool, head.request.slot());
        let ask = put_message(pool, ask);
        let request = SlotRequest {
            number: head.request,
            req_type: head.req_type,
            size: head.size,
            taken: 1,
            queued: 1,
            state: SlotState::Taking { ask: ask.place },
        };
        let reply = request.entry(self.number, 0, self.peer);
        self.slots.push(request);
        reply
    }

    // One packet more of a request is taken, whose bytes stand in its buffer already.
    fn take_next(&mut self, pool: &mut BufferPool, request: SlotRequest) -> Entry
        requires newest { IsNewest request self.old pool.old }
        requires turn { IsInTurn (next_taken request) }
        requires can_hold { CanHold pool.old request }
        ensures shown { shown pool.new self.new
            ≡ gone_on_as request.number (grown (bytes_with pool.old request))
            (shown pool.old self.old) }
        ensures replies { GivesReply request.number request.taken result self.old self.new pool.old
            pool.new }
    {
        let reply = request.entry(self.number, request.taken, self.peer);
        pool.hold_at(reply.place);
        self.slots.replace(SlotRequest {
            taken: request.taken + 1,
            queued: request.queued + 1,
            ..request
        });
        reply
    }

    // The bytes of the next packet of a request go to their place in its buffer. What is shown
    // doesn't change: the packet isn't taken yet.
    fn write_part(&self, pool: &mut BufferPool, request: &SlotRequest, place: Place, body: &[u8])
        requires session { IsSession self.now }
        requires newest { IsNewest request.now self.now pool.old }
        requires taking { request.now.state ≡ Taking place }
        requires within { request.now.taken < packet_count request.now.size }
        requires long { length body.now ≡ part_size request.now.size request.now.taken }
        ensures shown { shown pool.new self.now ≡ shown pool.old self.now }
        ensures bytes { bytes_with pool.new request.now
            ≡ ask_in pool.old request.now.taken (ask_of request.now.state) ++ body.now }
        ensures uses { pool.new.uses ≡ pool.old.uses }
        ensures stays { StaysSound [] self.now self.now pool.old pool.new }
    {
        let at = PART_BYTES * u32::from(request.taken);
        pool.get_mut(place).write(at, body);
    }
}
