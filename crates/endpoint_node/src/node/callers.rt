//! Which client sessions a poll visits, and which have requests of their own.
ghost use Rattle.std.specs.Prelude.{◌≡◌, ◌<◌, ◌≤◌, length, slice_get, IfSome};
ghost use Rattle.node_steps.specs.Callers.{IsNextCaller, is_visited};
ghost use Rattle.rpc_laws.specs.ControlSteps.{own_request};
ghost use Rattle.session_store.specs.Changes.{has_request};

use crate::node::Node;
use packet_header::ControlHeader;
use rpc_base::{MOST_SESSIONS, SessionNo, SessionState};
use rpc_laws::Way;
use session_mgmt::own_request;

// Whether a session in this state has a request of its own.
fn has_request(state: SessionState) -> bool
    ensures { result ≡ has_request state }
{
    match state {
        SessionState::Connecting | SessionState::Closing => true,
        SessionState::Unknown
        | SessionState::Connected
        | SessionState::Closed
        | SessionState::Failed
        | SessionState::Broken
        | SessionState::Spent => false,
    }
}

impl Node {
    /// The own request of session `i`, where it has one.
    pub fn own_request(&self, i: usize) -> Option<ControlHeader>
        requires known { i < length self.now.lists.clients }
        ensures { IfSome (slice_get self.now.lists.clients i)
            (λ x. result ≡ own_request self.now.lists.life x) }
    {
        let state = self.store.state(i);
        if !has_request(state) {
            return None;
        }
        let end = self.store.end_of_client(i);
        let way = Way {
            number: SessionNo(i as u16),
            peer: end.peer,
            other: end.server,
            life: end.life,
        };
        own_request(self.life, state, &way, end.credits)
    }

    /// The next client session that may have calls or a request of its own, from place `from` on and
    /// below `count`. Those that are passed over have neither.
    pub fn next_caller(&self, from: usize, count: usize) -> Option<usize>
        requires few { count ≤ MOST_SESSIONS }
        ensures { IsNextCaller from count self.now.lists.clients result }
    {
        let callers = &self.callers;
        if from >= count {
            return None;
        }
        let Some(next) = callers.next(from as u16) else {
            return None;
        };
        let next = usize::from(next);
        if next < count {
            return Some(next);
        }
        None
    }

    // Whether session `i` has calls or a request of its own.
    fn is_visited(&self, i: usize) -> bool
        requires known { i < length self.now.lists.clients }
        ensures { IfSome (slice_get self.now.lists.clients i) (λ x. result ≡ is_visited x) }
    {
        self.store.pending(i) != 0 || self.own_request(i).is_some()
    }

    /// Session `i` isn't visited any more, where it has neither a call nor a request of its own,
    /// until it has one.
    pub fn forget_idle(&mut self, i: usize)
        ensures { self.new ≡ self.old }
    {
        if i < self.store.clients() && !self.is_visited(i) {
            self.callers.leave(i as u16);
        }
    }
}
