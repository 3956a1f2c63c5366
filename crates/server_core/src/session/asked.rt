//! The bytes of a request, as far as they were taken, and those of its answer.
ghost use Rattle.std.specs.Prelude.{◌≡◌, ◌*◌, take};
ghost use Rattle.std.specs.List.{find};
ghost use Rattle.rpc_laws.specs.Requests.{is_request};
ghost use Rattle.server_core.specs.Asked.{bytes_answered, bytes_taken};
ghost use Rattle.server_core.specs.KeepsPool.{KeepsPool};
ghost use Rattle.server_core.specs.Shown.{shown};

use super::ServerSession;
use buffer_pool::BufferPool;
use rpc_base::{PART_BYTES, RequestNo};

impl ServerSession {
    /// The bytes taken so far of the newest request of a slot, where it has this number. There are
    /// none where another request or none is the newest there, or where they went with a job.
    pub fn asked<'a>(&self, pool: &'a BufferPool, request: RequestNo) -> &'a [u8]
        requires keeps_pool { KeepsPool pool.now self.now.slots }
        ensures { result.now ≡ bytes_taken
            (find (is_request request) (shown pool.now self.now).slots) }
    {
        let Some(newest) = self.slots.of_slot(request.slot()) else {
            return &[];
        };
        if newest.number.get() != request.get() {
            return &[];
        }
        let Some(place) = newest.ask() else {
            return &[];
        };
        first_packets(pool.get(place).bytes(), newest.taken)
    }

    /// The bytes of the answer to the newest request of a slot, where it has this number. There are
    /// none where another request or none is the newest there, or its answer isn't there.
    pub fn answer<'a>(&self, pool: &'a BufferPool, request: RequestNo) -> &'a [u8]
        requires keeps_pool { KeepsPool pool.now self.now.slots }
        ensures { result.now ≡ bytes_answered
            (find (is_request request) (shown pool.now self.now).slots) }
    {
        let Some(newest) = self.slots.of_slot(request.slot()) else {
            return &[];
        };
        if newest.number.get() != request.get() {
            return &[];
        }
        let Some(place) = newest.answer_place() else {
            return &[];
        };
        pool.get(place).bytes()
    }
}

// The bytes of a message's first packets.
fn first_packets(bytes: &[u8], taken: u16) -> &[u8]
    ensures { result.now ≡ take (PART_BYTES * taken) bytes.now }
{
    let end = PART_BYTES as usize * usize::from(taken);
    if end < bytes.len() {
        &bytes[..end]
    } else {
        bytes
    }
}
