//! Tests of what the session's other calls want of the pool and of the entries that are handed in.
ghost use Rattle.std.specs.Prelude.{◌≡◌, ◌↔◌, ℕ, Bool, IfSome, IsTrue};
ghost use Rattle.std.specs.List.{AllByRecursion};
ghost use Rattle.client_core.specs.KeepsPool.{IsHeld, KeepsPool};
ghost use Rattle.client_core.specs.Posting.{IsPacketOf, call_of, posted_entry};
ghost use Rattle.client_core.specs.Replies.{IsUnheld, NextIsUnheld, call_as};

use super::ClientSession;
use buffer_pool::BufferPool;
use packet_rings::Entry;
use rpc_base::{Peer, RequestNo};

impl ClientSession {
    /// The entry of a packet that the active call with this request number posted. None comes
    /// exactly where no active call has the number, or it didn't post the packet.
    pub fn entry(&self, request: RequestNo, number: u16, peer: Peer) -> Option<Entry>
        ensures entry { result ≡ posted_entry peer request number self.now }
        ensures stands { IfSome result (λ e. IsPacketOf (call_of self.now e) e) }
    {
        let Some(call) = self.calls.of_request(request) else {
            return None;
        };
        if number >= call.posted {
            return None;
        }
        Some(call.entry(self.number, number, peer))
    }

    /// Whether there is a reference to the place of an entry, if it has one, as `sent` and
    /// `flushed` want it.
    pub fn is_held(&self, pool: &BufferPool, entry: &Entry) -> bool
        requires keeps_pool { KeepsPool pool.now self.now.active }
        requires posted { IsPacketOf (call_of self.now entry.now) entry.now }
        ensures { IsTrue result ↔ IsHeld pool.now entry.now.place }
    {
        match entry.place {
            None => true,
            Some(place) => pool.refs(place) > 0,
        }
    }

    /// Whether no reference is left to the request of the active call with this number, as
    /// `on_reply` wants it where the call ends. True where there is no such call.
    pub fn is_unheld(&self, pool: &BufferPool, request: RequestNo) -> bool
        requires keeps_pool { KeepsPool pool.now self.now.active }
        ensures unheld { IfSome (call_as request self.now)
            (λ c. IsTrue result ↔ IsUnheld pool.now c) }
        ensures for_reply { IsTrue result → (queued : Bool) → (number : ℕ)
            → NextIsUnheld pool.now queued number (call_as request self.now) }
    {
        let Some(call) = self.calls.of_request(request) else {
            return true;
        };
        pool.refs(call.ask) == 0
    }

    /// Whether no reference is left to the request of any active call, as `lose` wants it.
    pub fn are_unheld(&self, pool: &BufferPool) -> bool
        requires keeps_pool { KeepsPool pool.now self.now.active }
        ensures { IsTrue result ↔ AllByRecursion (IsUnheld pool.now) self.now.active }
    {
        self.calls.are_unheld(pool)
    }
}
