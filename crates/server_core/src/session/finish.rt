//! The end of a session.
ghost use Rattle.std.specs.List.{AllByRecursion};
ghost use Rattle.server_core.specs.Finishing.{Ends};
ghost use Rattle.server_core.specs.KeepsPool.{KeepsPool};
ghost use Rattle.server_core.specs.Serving.{IsUnheld};

use super::ServerSession;
use crate::buffers::empty_buffers;
use buffer_pool::BufferPool;

impl ServerSession {
    /// The session ends, of which no reply is queued: all its buffers leave the pool.
    pub fn finish(self, pool: &mut BufferPool)
        requires keeps_pool { KeepsPool pool.old self.slots }
        requires unheld { AllByRecursion (IsUnheld pool.old) self.slots }
        ensures { Ends self.slots pool.old pool.new }
    {
        for request in self.slots.as_slice() {
            let _own = empty_buffers(pool, request);
        }
    }
}
