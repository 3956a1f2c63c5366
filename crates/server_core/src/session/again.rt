//! A request of one packet that is handled inline: its answer is written over the older one of its
//! slot where both stand in the slot's own buffer.
ghost use Rattle.std.specs.Prelude.{◌≤◌, IfSome};
ghost use Rattle.server_core.specs.Handling.{IsBegunWith};
ghost use Rattle.server_core.specs.Reusing.{IsOwn, IsReusable, IsRoom, PutsRoom, size_in};
ghost use Rattle.server_core.specs.Session.{newest};
ghost use Rattle.server_core.specs.Wanting.{MayBeginWhole};

use super::ServerSession;
use crate::running::Room;
use crate::slot::{SlotRequest, Stored};
use buffer_pool::BufferPool;
use packet_header::MessageHeader;
use rpc_base::{PART_BYTES, Place, RequestNo};

impl ServerSession {
    // A new request of this one packet begins, and the pool has room for its answer.
    pub(super) fn begin_inline(
        &mut self,
        pool: &mut BufferPool,
        head: &MessageHeader,
        room: Room,
    ) -> Stored
        requires begins { MayBeginWhole head.now self.old pool.old }
        requires room { IsRoom room }
        ensures { PutsRoom result (size_in room) (IsBegunWith head.now result self.old self.new
            pool.old) self.old self.new pool.new }
    {
        if let Some(place) = self.reusable(head.request, &room) {
            return self.begin_again(pool, head, place, room.size());
        }
        self.begin_working(pool, head);
        self.put_room(pool, SlotRequest::given(head), room)
    }

    // Where the answer to the newest request of the slot of this number is, if it stands in the
    // slot's own buffer, and the next one is to.
    fn reusable(&self, request: RequestNo, room: &Room) -> Option<Place>
        ensures place { IfSome result (λ p. IsReusable p (newest request self.now)) }
        ensures own { IfSome result (λ p. IsOwn room.now) }
    {
        if !room.is_own() {
            return None;
        }
        let Some(older) = self.slots.of_slot(request.slot()) else {
            return None;
        };
        let Some(answer) = older.answer() else {
            return None;
        };
        if answer.own { Some(answer.place) } else { None }
    }

    // So it is where its answer is to be written over the older one of the slot, at the same place.
    fn begin_again(
        &mut self,
        pool: &mut BufferPool,
        head: &MessageHeader,
        place: Place,
        size: u32,
    ) -> Stored
        requires begins { MayBeginWhole head.now self.old pool.old }
        requires reusable { IsReusable place (newest head.now.request self.old) }
        requires short { size ≤ PART_BYTES }
        ensures { PutsRoom result size (IsBegunWith head.now result self.old self.new pool.old)
            self.old self.new pool.new }
    {
        pool.get_mut(place).set_len(size);
        let answer = Stored {
            place,
            size,
            own: true,
        };
        self.slots.begin_again(SlotRequest::answered(head, &answer));
        answer
    }
}
