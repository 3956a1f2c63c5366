//! The server table: what a Request or RFR does to the session that it is for.
ghost use Rattle.std.specs.Prelude.{◌≡◌, ℕ, false, [], ◌∷◌, Some, length};
ghost use Rattle.buffer_pool.specs.Pool.{Pool};
ghost use Rattle.memory_count.specs.Faults.{HasRisenBy};
ghost use Rattle.rpc_laws.specs.Service.{is_handled};
ghost use Rattle.rpc_laws.specs.ServerTable.{new_row, server_row};
ghost use Rattle.rpc_outside.specs.Served.{StandsForSome};
ghost use Rattle.rpc_outside.specs.declared.service.Mode.{Mode};
ghost use Rattle.server_core.specs.Counting.{repeated};
ghost use Rattle.server_core.specs.Handling.{Handles, IsReady};
ghost use Rattle.server_core.specs.KeepsPool.{KeepsPool};
ghost use Rattle.server_core.specs.Lacks.{lacks_of};
ghost use Rattle.server_core.specs.Noting.{packet_facts};
ghost use Rattle.server_core.specs.Rows.{row_of};
ghost use Rattle.server_core.specs.Scene.{at_desk, incoming};
ghost use Rattle.server_core.specs.Session.{IsSession, newest};
ghost use Rattle.server_core.specs.Shown.{shown};
ghost use Rattle.server_core.specs.Steps.{AreServed, IsAsking, IsTakenBefore};
ghost use Rattle.server_core.specs.Wanting.{MayTake};
ghost use Rattle.server_core.specs.Keeping.{GivesReply};

use super::ServerSession;
use crate::slot::{SlotRequest, makes_job};
use crate::step::Step;
use buffer_pool::BufferPool;
use memory_count::Memory;
use packet_header::MessageHeader;
use packet_rings::{Entry, TxRing};
use rpc_base::{DropReason, Who};
use rpc_laws::ServerRow;
use rpc_outside::{Mode, Recorder, Service};

impl ServerSession {
    /// Handles a Request or RFR of this session, by the server table. `jobs_full` tells whether the
    /// node's jobs are full. The pool has an empty place. Where the packet begins a newer request,
    /// the ring has each reply to the older one of its slot that is neither sent nor flushed; they
    /// are taken out. The facts are noted as `who`. The reply is to be put into the ring; its place
    /// is held. A parcel is to be given to a worker. The buffers are made first: want of memory is
    /// a drop, after which the packet may come again.
    pub fn on_packet<V: Service, R: Recorder>(
        &mut self,
        memory: &mut Memory,
        pool: &mut BufferPool,
        tx: &mut TxRing,
        service: &mut V,
        head: &MessageHeader,
        body: &[u8],
        jobs_full: bool,
        who: Who,
        rec: &mut R,
    ) -> Step
        requires ready { IsReady (V.mode_of head.now.req_type) jobs_full head.now self.old pool.old
            tx.old.items }
        requires asking { IsAsking head.now (length body.now) }
        // All packets of a session are handled by services of one type.
        requires all_served { AreServed V.mode_of self.old.slots }
        requires founded { StandsForSome (V.stands service.old) }
        ensures handles { Handles V.Service R.log packet_facts who
            (incoming head.now body.now jobs_full) result
            (at_desk self.old pool.old tx.old service.old rec.old)
            (at_desk self.new pool.new tx.new service.new rec.new) }
        ensures cause { HasRisenBy (lacks_of result) memory.old memory.new }
    {
        let mode = service.mode(head.req_type);
        let step = match self.row(head, mode, jobs_full) {
            ServerRow::Drops(reason) => Step::Dropped(reason),
            ServerRow::Begins => self.begin(memory, pool, tx, service, mode, head, body, &who, rec),
            ServerRow::Takes => self.take(memory, pool, service, mode, head, body, &who, rec),
            ServerRow::Repeats => {
                let reply = self.repeat(pool, head);
                Step::Again { reply }
            }
        };
        self.note(head, &step, &who, rec);
        step
    }

    // A packet that was taken before is answered once more.
    fn repeat(&mut self, pool: &mut BufferPool, head: &MessageHeader) -> Entry
        requires ready { MayTake head.now self.old pool.old }
        requires again { IsTakenBefore head.now (newest head.now.request self.old) }
        ensures session { self.new ≡ repeated head.now.request self.old }
        ensures shown { shown pool.new self.new ≡ shown pool.old self.old }
        ensures replies { GivesReply head.now.request head.now.number result self.old self.new
            pool.old pool.new }
    {
        let Some(request) = self.newest(head.request) else {
            unreachable!()
        };
        let reply = request.entry(self.number, head.number, self.peer);
        pool.hold_at(reply.place);
        self.slots.replace(SlotRequest {
            queued: request.queued + 1,
            ..request
        });
        reply
    }

    /// What the server table says of a Request or RFR of this session, but for the want of memory.
    /// `mode` is that of its type, and `jobs_full` tells whether the node's jobs are full. Nothing
    /// changes.
    pub fn row(&self, head: &MessageHeader, mode: Mode, jobs_full: bool) -> ServerRow
        ensures row { result ≡ row_of mode jobs_full head.now self.now }
        // As the server rule says of what is shown.
        ensures rule { (pool : Pool) → KeepsPool pool self.now.slots →
            server_row mode jobs_full false (Some (shown pool self.now)) self.now.peer head.now
            ≡ result }
        ensures sound { IsSession self.now }
    {
        self.slot_row(head, mode, jobs_full)
    }

    // The table, row by row.
    fn slot_row(&self, head: &MessageHeader, mode: Mode, jobs_full: bool) -> ServerRow
        ensures row { result ≡ row_of mode jobs_full head.now self.now }
        ensures sound { IsSession self.now }
    {
        let Some(request) = self.slots.of_slot(head.request.slot()) else {
            return new_row(head, mode, jobs_full, false);
        };
        if head.request.get() < request.number.get() {
            return ServerRow::Drops(DropReason::Old);
        }
        if head.request.get() > request.number.get() {
            return new_row(head, mode, jobs_full, request.is_working());
        }
        request.row(head, mode, jobs_full)
    }
}

// Whether requests of a mode are served.
fn is_handled(mode: Mode) -> bool
    ensures { result ≡ is_handled mode }
{
    matches!(mode, Mode::Inline | Mode::Background)
}

// A number greater than each before it in its slot. `working` tells whether a worker has the newest
// request of the slot.
fn new_row(head: &MessageHeader, mode: Mode, jobs_full: bool, working: bool) -> ServerRow
    ensures { result ≡ new_row mode working jobs_full false head.now }
{
    if head.kind.is_rfr() || head.number != 0 {
        return ServerRow::Drops(DropReason::NotFirst);
    }
    if working {
        return ServerRow::Drops(DropReason::Working);
    }
    if !is_handled(mode) {
        return ServerRow::Drops(DropReason::Unserved);
    }
    if makes_job(head, mode) && jobs_full {
        return ServerRow::Drops(DropReason::JobsFull);
    }
    ServerRow::Begins
}
