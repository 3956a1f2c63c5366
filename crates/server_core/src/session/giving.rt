//! Background jobs: a request goes to a worker with its bytes, and its answer comes back.
ghost use Rattle.std.specs.Prelude.{◌≡◌, ◌<◌, ◌+◌, [], None, Some};
ghost use Rattle.packet_header.specs.Parts.{packet_count};
ghost use Rattle.message_buffer.specs.Buffer.{bytes_of};
ghost use Rattle.buffer_pool.specs.Pool.{buf_at, spare_of};
ghost use Rattle.rpc_laws.specs.Requests.{given};
ghost use Rattle.server_core.specs.Finishing.{Finishes, GivesAnswer};
ghost use Rattle.server_core.specs.KeepsPool.{IsAsked, KeepsPool};
ghost use Rattle.server_core.specs.Serving.{first_given, last_given};
ghost use Rattle.server_core.specs.declared.slot.SlotState.TheVariants.{Taking};
ghost use Rattle.server_core.specs.Shown.{shown};
ghost use Rattle.server_core.specs.Steps.{begun_with, first_shown, gone_on_as, grown};
ghost use Rattle.packet_header.specs.Parts.{IsMessage};
ghost use Rattle.server_core.specs.Keeping.{BeginsSound, StaysSound};
ghost use Rattle.server_core.specs.Wanting.{CanBeginWhole, IsAwaited, IsNewest};

use super::ServerSession;
use crate::buffers::put_message;
use crate::slot::SlotRequest;
use buffer_pool::BufferPool;
use message_buffer::MsgBuf;
use packet_header::MessageHeader;
use packet_rings::Entry;
use rpc_base::Place;
use worker_board::Parcel;

impl ServerSession {
    /// A job of this session is finished, and its parcel has the answer. The pool has an empty
    /// place. The reply is to be put into the transmit ring; its place is held. None comes exactly
    /// where the request isn't the newest of its slot or no worker has it, and then nothing
    /// changes.
    pub fn on_finished(&mut self, pool: &mut BufferPool, parcel: Parcel) -> Option<Entry>
        requires session { parcel.session ≡ self.old.number }
        requires answer { IsMessage parcel.out.len }
        requires keeps_pool { KeepsPool pool.old self.old.slots }
        requires spare { 0 < spare_of pool.old }
        ensures { Finishes parcel.request (bytes_of parcel.out) result self.old self.new pool.old
            pool.new }
    {
        let Some(request) = self.slots.of_slot(parcel.request.slot()) else {
            return None;
        };
        if request.number.get() != parcel.request.get() || !request.is_working() {
            return None;
        }
        let reply = self.put_answer(pool, request, parcel.out);
        self.sound();
        Some(reply)
    }

    // The answer to a request that a worker has is there: it is held for the reply to its last
    // packet.
    pub(super) fn put_answer(
        &mut self,
        pool: &mut BufferPool,
        request: SlotRequest,
        answer: MsgBuf,
    ) -> Entry
        requires awaited { IsAwaited request self.old pool.old }
        requires answer { IsMessage answer.len }
        ensures { GivesAnswer request (bytes_of answer) result self.old self.new pool.old pool.new }
    {
        let answer = put_message(pool, answer);
        pool.hold(answer.place);
        let number = request.taken - 1;
        let request = request.worked(&answer);
        let reply = request.entry(self.number, number, self.peer);
        self.slots.replace(request);
        reply
    }

    // A new request of this one packet begins: a worker or its handler has it, with its bytes.
    pub(super) fn begin_working(&mut self, pool: &mut BufferPool, head: &MessageHeader)
        requires { CanBeginWhole head.now self.old pool.old }
        ensures shown { shown pool.new self.new
            ≡ begun_with (given (first_shown head.now [] None)) (shown pool.old self.old) }
        ensures number { self.new.number ≡ self.old.number }
        ensures awaited { IsAwaited (first_given head.now) self.new pool.new }
        ensures begins { BeginsSound head.now [] self.old self.new pool.old pool.new }
    {
        self.slots.give_up(pool, head.request.slot());
        self.slots.push(SlotRequest::given(head));
    }

    // The last packet of a request is taken, whose bytes stand in its buffer already: that leaves
    // the pool, and a worker or the handler has it.
    pub(super) fn take_working(
        &mut self,
        pool: &mut BufferPool,
        request: SlotRequest,
        place: Place,
    ) -> MsgBuf
        requires newest { IsNewest request self.old pool.old }
        requires taking { request.state ≡ Taking place }
        requires kept { IsAsked pool.old request.size place }
        requires size { IsMessage request.size }
        requires last { request.taken + 1 ≡ packet_count request.size }
        ensures ask { buf_at pool.old place ≡ Some result }
        ensures shown { shown pool.new self.new
            ≡ gone_on_as request.number (λ x. given (grown [] x)) (shown pool.old self.old) }
        ensures number { self.new.number ≡ self.old.number }
        ensures awaited { IsAwaited (last_given request) self.new pool.new }
        ensures stays { StaysSound [] self.old self.new pool.old pool.new }
    {
        let Ok(ask) = pool.take(place) else {
            unreachable!()
        };
        self.slots.replace(request.last_given());
        ask
    }
}
