//! When the timers next have something to do.
ghost use Rattle.std.specs.Prelude.{◌≡◌, ◌<◌, ◌≤◌, ◌+◌, ◌-◌, Some, length, slice_get, IfSome};
ghost use Rattle.node_steps.specs.Due.{CallsRest, DueUnless, IsBetween, IsFirstDue};
ghost use Rattle.node_steps.specs.Due.{RequestRests};
ghost use Rattle.node_steps.specs.Due.{RestsAt, SessionRests};
ghost use Rattle.node_steps.specs.Wants.{HasActive};
ghost use Rattle.rpc_laws.specs.GoBackN.{row_of};
ghost use Rattle.rpc_laws.specs.declared.rows.TimerRow.TheVariants.{Waits};
ghost use Rattle.session_store.specs.Ends.{progress_of};

use crate::node::Node;
use client_core::Active;
use rpc_laws::{RetryRow, TimerRow};
use session_mgmt::retry_row;

/// A span of time, in microseconds: nothing is due at its begin, and something is at its end.
#[derive(Clone, Copy, Debug)]
struct Span {
    resting: u64,
    due: u64,
}

impl Node {
    // Whether the own request of session `i` is to be sent, or given up, at this moment, in
    // microseconds.
    fn is_request_due(&self, i: usize, at: u64) -> bool
        requires known { i < length self.now.lists.clients }
        ensures { IfSome (slice_get self.now.lists.clients i)
            (λ x. DueUnless (RequestRests at self.now.lists.timeout x) result) }
    {
        let Some(_request) = self.own_request(i) else {
            return false;
        };
        let sent = self.store.own_requests(i);
        match retry_row(at, self.limits.timeout, sent.sends, sent.sent_at) {
            RetryRow::Rests => false,
            RetryRow::Asks => true,
            RetryRow::GivesUp => true,
        }
    }

    // Whether an active call of session `i` times out at this moment, in microseconds.
    fn is_active_due(&self, i: usize, active: &Active, at: u64) -> bool
        requires { HasActive i active.now self.now }
        ensures { IfSome (slice_get self.now.lists.clients i)
            (λ x. IfSome (progress_of active.now.call x) (λ p. DueUnless
            (row_of at self.now.lists.timeout i self.now.lists.queued p ≡ Waits) result)) }
    {
        match self.store.timer(i, active, at, self.limits.timeout) {
            TimerRow::Waits => false,
            TimerRow::RollsBack => true,
            TimerRow::Breaks => true,
        }
    }

    // Whether a call of session `i` times out at this moment, in microseconds.
    fn is_call_due(&self, i: usize, at: u64) -> bool
        requires known { i < length self.now.lists.clients }
        ensures { IfSome (slice_get self.now.lists.clients i) (λ x. DueUnless
            (CallsRest at self.now.lists.timeout i self.now.lists.queued x) result) }
    {
        let mut after = None;
        'calls: while let Some(active) = self.store.active(i, after) {
            if self.is_active_due(i, &active, at) {
                return true;
            }
            after = Some(active.call);
        }
        false
    }

    // Whether session `i` has something to do at this moment, in microseconds.
    fn is_session_due(&self, i: usize, at: u64) -> bool
        requires known { i < length self.now.lists.clients }
        ensures { IfSome (slice_get self.now.lists.clients i) (λ x. DueUnless
            (SessionRests at self.now.lists.timeout i self.now.lists.queued x) result) }
    {
        if self.is_request_due(i, at) {
            return true;
        }
        self.is_call_due(i, at)
    }

    /// Whether at this moment, in microseconds, a session's own request is to be sent or given up,
    /// a call times out, or a queued packet may be sent.
    pub fn is_due(&self, at: u64) -> bool
        ensures { DueUnless (RestsAt at self.now.lists) result }
    {
        if !self.store.rests(at) {
            return true;
        }
        let count = self.store.clients();
        let mut from = 0;
        'sessions: while let Some(i) = self.next_caller(from, count) {
            if self.is_session_due(i, at) {
                return true;
            }
            from = i + 1;
        }
        false
    }

    // The half of a span in which the first moment lies at which something is due.
    fn half(&self, span: Span) -> Span
        requires between { IsBetween span.resting span.due self.now.lists }
        requires wide { span.resting + 1 < span.due }
        ensures between { IsBetween result.resting result.due self.now.lists }
        ensures from { span.resting ≤ result.resting }
        ensures to { result.due ≤ span.due }
        ensures shorter { result.due - result.resting < span.due - span.resting }
    {
        let middle = span.resting + (span.due - span.resting) / 2;
        if self.is_due(middle) {
            return Span {
                resting: span.resting,
                due: middle,
            };
        }
        Span {
            resting: middle,
            due: span.due,
        }
    }

    // The first moment of a span at which something is due.
    fn first_in(&self, whole: Span) -> u64
        requires { IsBetween whole.resting whole.due self.now.lists }
        ensures { IsFirstDue whole.resting whole.due self.now.lists (Some result) }
    {
        let mut span = whole;
        'halves: while span.due - span.resting > 1 {
            span = self.half(span);
        }
        span.due
    }

    /// The node's clock, in microseconds.
    pub fn clock(&self) -> u64
        ensures { result ≡ self.now.clock }
    {
        self.clock
    }

    /// The first moment from the node's clock on, and up to `until`, both in microseconds, at which
    /// something is due: a session's own request is to be sent or given up, a call times out, or a
    /// queued packet may be sent. None comes exactly where nothing is due up to then.
    pub fn first_due(&self, until: u64) -> Option<u64>
        ensures { IsFirstDue self.now.clock until self.now.lists result }
    {
        if !self.is_due(until) {
            return None;
        }
        if until <= self.clock {
            return Some(until);
        }
        if self.is_due(self.clock) {
            return Some(self.clock);
        }
        let span = Span {
            resting: self.clock,
            due: until,
        };
        Some(self.first_in(span))
    }
}
