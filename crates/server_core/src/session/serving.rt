//! The handler of a request runs, and its answer is written where the pool has room for it.
ghost use Rattle.std.specs.Prelude.{◌≡◌};
ghost use Rattle.server_core.specs.Reusing.{HasRoom, IsRoom, PutsRoom, size_in};
ghost use Rattle.server_core.specs.Handling.{IsAnsweredWith, RunsInline};
ghost use Rattle.server_core.specs.Replies.{placed_entry};
ghost use Rattle.server_core.specs.Scene.{scene};
ghost use Rattle.server_core.specs.Wanting.{CanServe, IsAwaited};

use super::ServerSession;
use crate::buffers::put_message;
use crate::running::Room;
use crate::slot::{SlotRequest, Stored};
use buffer_pool::BufferPool;
use packet_header::MessageHeader;
use packet_rings::Entry;
use rpc_base::Who;
use rpc_outside::{Recorder, Service};

impl ServerSession {
    // The handler of a request that was taken with its last packet runs, which is noted with the
    // bytes of both messages. Its answer is held for the reply to that packet.
    pub(super) fn run<V: Service, R: Recorder>(
        &self,
        pool: &mut BufferPool,
        service: &mut V,
        answer: Stored,
        head: &MessageHeader,
        ask: &[u8],
        who: &Who,
        rec: &mut R,
    ) -> Entry
        requires room { HasRoom answer pool.old }
        requires serves { CanServe V.Service service.old head.now.req_type ask.now answer.size }
        ensures runs { RunsInline V.Service R.log who.now self.now.number head.now ask.now answer
            (scene pool.old service.old rec.old) (scene pool.new service.new rec.new) }
        ensures reply { result ≡ placed_entry self.now head.now.request head.now.number answer }
    {
        let buffer = pool.get_mut(answer.place);
        service.serve(head.req_type, ask, buffer.whole_mut());
        self.note_ran(head, ask, pool.get(answer.place).bytes(), who, rec);
        pool.hold(answer.place);
        Entry {
            owner: self.owner_of(head),
            number: head.number,
            place: Some(answer.place),
            peer: self.peer,
        }
    }

    // The room for the answer to a request that is at work goes to the pool.
    pub(super) fn put_room(
        &mut self,
        pool: &mut BufferPool,
        request: SlotRequest,
        room: Room,
    ) -> Stored
        requires awaited { IsAwaited request self.old pool.old }
        requires room { IsRoom room }
        ensures { PutsRoom result (size_in room) (IsAnsweredWith request result self.old self.new
            pool.old) self.old self.new pool.new }
    {
        match room {
            Room::Own(size) => self.slots.lend(pool, &request, size),
            Room::Made(buffer) => {
                let answer = put_message(pool, buffer);
                self.slots.replace(request.worked(&answer));
                answer
            }
        }
    }
}
