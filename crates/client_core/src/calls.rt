//! The list of a session's active calls.
ghost use Rattle.std.specs.Prelude.{◌≡◌, ◌<◌, ◌≤◌, [], ◌∷◌, ◌++◌, ◌&&◌, ◌==◌, ◌↔◌, IsTrue, None};
ghost use Rattle.std.specs.Prelude.{Some, length, option_copied, position, slice_get, slice_set};
ghost use Rattle.std.specs.Prelude.{IfNone};
ghost use Rattle.std.specs.List.{AllByRecursion, find, list_any, remove};
ghost use Rattle.rpc_base.specs.Tables.{at_first, without_first};
ghost use Rattle.rpc_base.specs.Least.{least, least_number, smaller};
ghost use Rattle.client_core.specs.Watching.{call_number, is_after};
ghost use Rattle.client_core.specs.KeepsPool.{CanHold, KeepsPool};
ghost use Rattle.client_core.specs.Session.{IsInTurn, can_post};
ghost use Rattle.client_core.specs.Posting.{is_owner, marked, one_left, one_posted};
ghost use Rattle.client_core.specs.Replies.{IsUnheld, is_request};
ghost use Rattle.client_core.specs.Timeouts.{is_late, is_numbered};

use crate::call::ActiveCall;
use arrayvec::ArrayVec;
use buffer_pool::BufferPool;
use rpc_base::{CallNo, Owner, RequestNo, SessionNo};
use std::marker::Model;

/// As many calls as a session has slots, which lie in the session itself. Contracts see the list.
#[derive(Drop)]
pub struct Calls {
    items: ArrayVec<ActiveCall, 8>,
}

impl Model for Calls {
    ghost use Rattle.std.specs.Prelude.{List};
    ghost use Rattle.client_core.specs.declared.call.ActiveCall.{ActiveCall};

    ghost Value = { List ActiveCall };

    ghost view = { λ c. c.items.items };
}

impl Calls {
    /// No call.
    pub fn new() -> Calls
        ensures { result ≡ [] }
    {
        Calls {
            items: ArrayVec::new(),
        }
    }

    pub fn len(&self) -> usize
        ensures len { result ≡ length self.now }
        ensures most { result ≤ 8 }
    {
        self.items.len()
    }

    /// Lends the calls as a slice.
    pub fn as_slice(&self) -> &[ActiveCall]
        ensures { result.now ≡ self.now }
    {
        self.items.as_slice()
    }

    /// Puts a call behind the others, which are fewer than eight.
    pub fn push(&mut self, call: ActiveCall)
        requires { length self.old < 8 }
        ensures { self.new ≡ self.old ++ call ∷ [] }
    {
        self.items.push(call);
    }

    // Call `i`, which has to be there.
    fn at(&self, i: usize) -> ActiveCall
        requires { i < length self.now }
        ensures { slice_get self.now i ≡ Some result }
    {
        self.items.as_slice()[i]
    }

    // Puts `call` in the place of call `i`, which has to be there.
    fn set(&mut self, i: usize, call: ActiveCall)
        requires { i < length self.old }
        ensures { self.new ≡ slice_set self.old i call }
    {
        self.items.as_mut_slice()[i] = call;
    }

    // Takes call `i` out, which has to be there.
    fn take_out(&mut self, i: usize)
        requires { i < length self.old }
        ensures { self.new ≡ remove self.old i }
    {
        self.items.remove(i);
    }

    fn next_to_post(&self) -> Option<usize>
        ensures { result ≡ position can_post self.now }
    {
        self.as_slice().iter().position(|call| call.can_post())
    }

    fn place_of_owner(&self, session: SessionNo, owner: Owner) -> Option<usize>
        ensures { result ≡ position (is_owner session owner) self.now }
    {
        self.as_slice()
            .iter()
            .position(|call| call.owner(session).is_same(owner))
    }

    /// The oldest call that has a packet to post has posted it. The result is that call as it was;
    /// None comes exactly where no call has one.
    pub fn post_next(&mut self) -> Option<ActiveCall>
        requires { AllByRecursion IsInTurn self.old }
        ensures call { result ≡ find can_post self.old }
        ensures calls { self.new ≡ at_first can_post one_posted self.old }
        ensures unchanged { IfNone result (self.new ≡ self.old) }
    {
        let Some(at) = self.next_to_post() else {
            return None;
        };
        let call = self.at(at);
        self.set(
            at,
            ActiveCall {
                posted: call.posted + 1,
                queued: call.queued + 1,
                ..call
            },
        );
        Some(call)
    }

    /// The packet of this number was sent, of the call whose packets are this owner's in the
    /// session. Where it is the one whose answer the call wants, the call's clock starts anew.
    pub fn mark(&mut self, session: SessionNo, owner: Owner, number: u16, now: u64)
        ensures { self.new ≡ at_first (is_owner session owner) (marked number now) self.old }
    {
        if let Some(at) = self.place_of_owner(session, owner) {
            let call = self.at(at).marked(number, now);
            self.set(at, call);
        }
    }

    /// An entry was taken out unsent, of the call whose packets are this owner's in the session.
    pub fn leave(&mut self, session: SessionNo, owner: Owner)
        ensures { self.new ≡ at_first (is_owner session owner) one_left self.old }
    {
        if let Some(at) = self.place_of_owner(session, owner) {
            let call = self.at(at).left();
            self.set(at, call);
        }
    }

    fn place_of_request(&self, request: RequestNo) -> Option<usize>
        ensures { result ≡ position (is_request request) self.now }
    {
        self.as_slice()
            .iter()
            .position(|call| call.request.get() == request.get())
    }

    fn place_of_number(&self, number: CallNo) -> Option<usize>
        ensures { result ≡ position (is_numbered number) self.now }
    {
        self.as_slice()
            .iter()
            .position(|call| call.call.0 == number.0)
    }

    /// The active call with this request number, if there is one.
    pub fn of_request(&self, request: RequestNo) -> Option<ActiveCall>
        ensures { result ≡ find (is_request request) self.now }
    {
        let Some(at) = self.place_of_request(request) else {
            return None;
        };
        Some(self.at(at))
    }

    /// The active call with this number, if there is one.
    pub fn of_number(&self, number: CallNo) -> Option<ActiveCall>
        ensures { result ≡ find (is_numbered number) self.now }
    {
        let Some(at) = self.place_of_number(number) else {
            return None;
        };
        Some(self.at(at))
    }

    /// Puts `call` in the place of the call with this request number, if there is one.
    pub fn replace(&mut self, request: RequestNo, call: ActiveCall)
        ensures { self.new ≡ at_first (is_request request) (λ c. call) self.old }
    {
        if let Some(at) = self.place_of_request(request) {
            self.set(at, call);
        }
    }

    /// The call with this request number is taken out.
    #[inline(always)]
    pub fn remove(&mut self, request: RequestNo)
        ensures { self.new ≡ without_first (is_request request) self.old }
    {
        if let Some(at) = self.place_of_request(request) {
            self.take_out(at);
        }
    }

    /// The call whose packets are this owner's in the session, if there is one.
    pub fn of_owner(&self, session: SessionNo, owner: Owner) -> Option<&ActiveCall>
        ensures { option_copied result ≡ find (is_owner session owner) self.now }
    {
        self.as_slice()
            .iter()
            .find(|call| call.owner(session).is_same(owner))
    }

    /// Whether one reference more can be counted to each call's request.
    pub fn can_hold(&self, pool: &BufferPool) -> bool
        requires { KeepsPool pool.now self.now }
        ensures { IsTrue result ↔ CanHold pool.now self.now }
    {
        for call in self.as_slice() {
            if pool.refs(call.ask) == u32::MAX {
                return false;
            }
        }
        true
    }

    /// Whether no reference is left to any call's request.
    pub fn are_unheld(&self, pool: &BufferPool) -> bool
        requires { KeepsPool pool.now self.now }
        ensures { IsTrue result ↔ AllByRecursion (IsUnheld pool.now) self.now }
    {
        for call in self.as_slice() {
            if pool.refs(call.ask) > 0 {
                return false;
            }
        }
        true
    }

    /// Whether the clock of a call says at `now`, with this timeout, both in microseconds, that it
    /// timed out.
    pub fn has_late(&self, now: u64, timeout: u64) -> bool
        ensures { result ≡ list_any (is_late now timeout) self.now }
    {
        self.as_slice()
            .iter()
            .any(|call| call.is_late(now, timeout))
    }

    // The least number of a call above `after`.
    fn least_after(&self, after: &Option<CallNo>) -> Option<u64>
        ensures { result ≡ least_number (is_after after.now) call_number self.now }
    {
        let mut least = None;
        for call in self.as_slice() {
            if call.is_after(after) {
                least = Some(smaller_of(call.call.0, least));
            }
        }
        least
    }

    /// The call of least number, above `after` if that is given.
    pub fn least(&self, after: &Option<CallNo>) -> Option<&ActiveCall>
        ensures { option_copied result ≡ least (is_after after.now) call_number self.now }
    {
        let Some(number) = self.least_after(after) else {
            return None;
        };
        self.numbered(after, number)
    }

    /// The call of least number, if there is one.
    pub fn next(&self) -> Option<ActiveCall>
        ensures { result ≡ least (is_after None) call_number self.now }
    {
        self.least(&None).copied()
    }

    fn numbered(&self, after: &Option<CallNo>, number: u64) -> Option<&ActiveCall>
        ensures { option_copied result ≡ find (λ c. is_after after.now c && call_number c == number)
            self.now }
    {
        self.as_slice()
            .iter()
            .find(|call| call.is_after(after) && call.call.0 == number)
    }
}

// The smaller of a number and another that may be there.
fn smaller_of(number: u64, other: Option<u64>) -> u64
    ensures { result ≡ smaller number other }
{
    match other {
        Some(other) => number.min(other),
        None => number,
    }
}
