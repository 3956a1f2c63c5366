//! Timeouts: a call is rolled back, and the calls of a session that lost its peer end.
ghost use Rattle.std.specs.Prelude.{◌≡◌, ◌<◌, ◌↔◌, Bool, false, List, [], IfNone, IfSome};
ghost use Rattle.std.specs.Prelude.{IsNone, IsSome, Some};
ghost use Rattle.std.specs.List.{AllByRecursion, list_any};
ghost use Rattle.rpc_base.specs.declared.owner.Owner.TheVariants.{Ask};
ghost use Rattle.buffer_pool.specs.Pool.{Pool};
ghost use Rattle.rpc_laws.specs.declared.tables.Queued.{Queued};
ghost use Rattle.rpc_laws.specs.GoBackN.{row_of};
ghost use Rattle.rpc_laws.specs.Queues.{is_queued};
ghost use Rattle.client_core.specs.declared.outcome.Timer.TheVariants.{Quiet};
ghost use Rattle.client_core.specs.Effects.{LosesNext, RollsBack};
ghost use Rattle.client_core.specs.KeepsPool.{KeepsPool};
ghost use Rattle.rpc_laws.specs.declared.rows.TimerRow.TheVariants.{Waits};
ghost use Rattle.client_core.specs.Losing.{GivesUp};
ghost use Rattle.client_core.specs.Replies.{IsUnheld};
ghost use Rattle.client_core.specs.Shown.{shown_active};
ghost use Rattle.client_core.specs.Timeouts.{call_numbered, call_timer, is_late, timer_told};

use super::ClientSession;
use super::reply::returned;
use crate::call::ActiveCall;
use crate::outcome::{Done, Outcome, Timer};
use buffer_pool::BufferPool;
use rpc_base::CallNo;
use rpc_laws::TimerRow;

impl ClientSession {
    /// Whether the clock of an active call says at `now`, with this timeout, both in microseconds,
    /// that it timed out, whatever is queued.
    pub fn has_late(&self, now: u64, timeout: u64) -> bool
        ensures { result ≡ list_any (is_late now timeout) self.now.active }
    {
        self.calls.has_late(now, timeout)
    }

    /// What an active call's clock says at `now`, with this timeout, both in microseconds. `queued`
    /// tells whether the call's packet `got` is queued.
    pub fn check(&self, call: CallNo, now: u64, queued: bool, timeout: u64) -> Timer
        requires active { IsSome (call_numbered call self.now) }
        ensures told { IfSome (call_numbered call self.now)
            (λ c. result ≡ timer_told (call_timer now timeout queued c) c) }
        // Where the call hasn't timed out with no packet queued, it hasn't whatever is queued.
        ensures quiet { queued ≡ false → result ≡ Quiet
            → IfSome (call_numbered call self.now)
            (λ c. (b : Bool) → call_timer now timeout b c ≡ Waits) }
        // As the timer rule says of what is shown, whatever else is queued.
        ensures rule { IfSome (call_numbered call self.now)
            (λ c. (queue : List Queued) → list_any (is_queued (Ask self.now.number c.request) c.got)
            queue ≡ queued →
            (pool : Pool) → IfSome (shown_active pool c).progress
            (λ p. row_of now timeout self.now.number queue p ≡ call_timer now timeout queued c)) }
    {
        let Some(call) = self.calls.of_number(call) else {
            unreachable!()
        };
        told(call.timer(now, queued, timeout), &call)
    }

    /// An active call is rolled back, of which no packet is queued any more and which was rolled
    /// back fewer than eight times without a reply: the credits of its unanswered packets come
    /// back, and those packets are to be posted again.
    pub fn roll(&mut self, call: CallNo)
        requires active { IsSome (call_numbered call self.old) }
        requires few { IfSome (call_numbered call self.old) (λ c. c.rolls < 8) }
        requires idle { IfSome (call_numbered call self.old) (λ c. c.queued ≡ 0) }
        ensures { RollsBack call self.old self.new }
    {
        let Some(call) = self.calls.of_number(call) else {
            unreachable!()
        };
        self.credits.roll(call.request.slot());
        self.calls.replace(call.request, call.rolled());
    }

    /// The next call of a session that lost its peer, of which no packet is queued any more: the
    /// active calls end in the order of their numbers, and then those that wait, oldest first. None
    /// comes exactly where no call is left.
    pub fn lose(&mut self, pool: &mut BufferPool) -> Option<Done>
        requires keeps_pool { KeepsPool pool.old self.old.active }
        requires unheld { AllByRecursion (IsUnheld pool.old) self.old.active }
        ensures { LosesNext result self.old self.new pool.old pool.new }
    {
        if let Some(call) = self.calls.next() {
            return Some(self.end(pool, call, Outcome::PeerLost));
        }
        self.give_up()
    }

    // The call that waited longest is given up.
    fn give_up(&mut self) -> Option<Done>
        ensures none { IsNone result ↔ (self.old.slots.waiting ≡ []) }
        ensures unchanged { IfNone result (self.new ≡ self.old) }
        ensures given_up { IfSome result (λ d. GivesUp d self.old self.new) }
    {
        let Some(waiting) = self.slots.drain() else {
            return None;
        };
        self.waiting -= 1;
        Some(Done {
            call: waiting.call,
            session: self.number,
            tag: waiting.tag,
            outcome: Outcome::PeerLost,
            req: waiting.req,
            resp: returned(Outcome::PeerLost, waiting.resp),
        })
    }
}

fn told(row: TimerRow, call: &ActiveCall) -> Timer
    ensures { result ≡ timer_told row call.now }
{
    match row {
        TimerRow::Waits => Timer::Quiet,
        TimerRow::RollsBack => Timer::Roll {
            request: call.request,
            posted: call.posted,
            got: call.got,
        },
        TimerRow::Breaks => Timer::Lost,
    }
}
