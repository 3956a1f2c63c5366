//! Tests of what the session's other calls want of the pool and of the entries that are handed in.
ghost use Rattle.std.specs.Prelude.{◌≡◌, ◌↔◌, IfSome, IsTrue};
ghost use Rattle.std.specs.List.{AllByRecursion};
ghost use Rattle.server_core.specs.KeepsPool.{KeepsPool};
ghost use Rattle.server_core.specs.Replies.{CanHold, IsHeld, IsReplyTo, request_of, taken_entry};
ghost use Rattle.server_core.specs.Serving.{IsUnheld};
ghost use Rattle.server_core.specs.Session.{newest};
ghost use Rattle.server_core.specs.Wanting.{IsPosted};

use super::ServerSession;
use buffer_pool::BufferPool;
use packet_rings::Entry;
use rpc_base::RequestNo;

impl ServerSession {
    /// The entry of the reply to a packet that was taken of the newest request of a slot, which has
    /// this number. None comes exactly where another request or none is the newest there, the
    /// packet wasn't taken, or it is the last one of a request that a worker has.
    pub fn entry(&self, request: RequestNo, number: u16) -> Option<Entry>
        ensures entry { result ≡ taken_entry request number self.now }
        ensures stands { IfSome result (λ e. IsReplyTo (request_of self.now e) e) }
    {
        let Some(newest) = self.slots.of_slot(request.slot()) else {
            return None;
        };
        if newest.number.get() != request.get() || !newest.has_reply(number) {
            return None;
        }
        Some(newest.entry(self.number, number, self.peer))
    }

    /// Whether there is a reference to the place of an entry, if it has one, as `sent` and
    /// `flushed` want it.
    pub fn is_held(&self, pool: &BufferPool, entry: &Entry) -> bool
        requires { IsPosted entry.now self.now pool.now }
        ensures { IsTrue result ↔ IsHeld pool.now entry.now.place }
    {
        match entry.place {
            None => true,
            Some(place) => pool.refs(place) > 0,
        }
    }

    /// Whether one reply more to the newest request of the slot of this number can be queued, as
    /// `on_packet` wants it. True where there is no such request.
    pub fn can_hold(&self, pool: &BufferPool, request: RequestNo) -> bool
        requires keeps_pool { KeepsPool pool.now self.now.slots }
        ensures can_hold { IfSome (newest request self.now)
            (λ q. IsTrue result ↔ CanHold pool.now q) }
        ensures for_packet { IsTrue result → IfSome (newest request self.now) (CanHold pool.now) }
    {
        let Some(newest) = self.slots.of_slot(request.slot()) else {
            return true;
        };
        newest.can_hold(pool)
    }

    /// Whether no reference is left to the answer of the newest request of the slot of this number,
    /// as `on_packet` wants it where a newer one begins. True where there is no such request.
    pub fn is_unheld(&self, pool: &BufferPool, request: RequestNo) -> bool
        requires keeps_pool { KeepsPool pool.now self.now.slots }
        ensures unheld { IfSome (newest request self.now)
            (λ q. IsTrue result ↔ IsUnheld pool.now q) }
        ensures for_packet { IsTrue result → IfSome (newest request self.now) (IsUnheld pool.now) }
    {
        let Some(newest) = self.slots.of_slot(request.slot()) else {
            return true;
        };
        newest.is_unheld(pool)
    }

    /// Whether no reply to the newest request of the slot of this number is queued. True where
    /// there is no such request.
    pub fn is_unqueued(&self, request: RequestNo) -> bool
        ensures unqueued { IfSome (newest request self.now) (λ q. IsTrue result ↔ (q.queued ≡ 0)) }
        ensures for_packet { IsTrue result → IfSome (newest request self.now) (λ q. q.queued ≡ 0) }
    {
        let Some(newest) = self.slots.of_slot(request.slot()) else {
            return true;
        };
        newest.queued == 0
    }

    /// Whether no reference is left to any answer, as `finish` wants it.
    pub fn are_unheld(&self, pool: &BufferPool) -> bool
        requires keeps_pool { KeepsPool pool.now self.now.slots }
        ensures { IsTrue result ↔ AllByRecursion (IsUnheld pool.now) self.now.slots }
    {
        self.slots.are_unheld(pool)
    }
}
