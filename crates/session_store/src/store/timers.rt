//! Timeouts: calls are rolled back, and a session loses its peer.
ghost use Rattle.std.specs.Prelude.{◌≡◌, ◌<◌, length, option_map, slice_get, IfSome};
ghost use Rattle.std.specs.List.{list_any};
ghost use Rattle.client_core.specs.declared.outcome.Outcome.TheVariants.{PeerLost};
ghost use Rattle.rpc_laws.specs.Sessions.{breaks};
ghost use Rattle.session_store.specs.Changes.{ActiveAt, IsConnected, IsIdle, IsLost, LosesAt};
ghost use Rattle.session_store.specs.Changes.{MayRoll, RollsAt, RowAt};
ghost use Rattle.session_store.specs.Ends.{is_late};
ghost use Rattle.session_store.specs.Handing.{HandsBackIf};
ghost use Rattle.session_store.specs.Leaving.{ChangesCalls, ChangesClient, ChangesClients};

use super::Store;
use client_core::{Active, Done, Timer};
use rpc_base::CallNo;
use rpc_laws::TimerRow;
use session_ends::{Stage, lose_at, roll_at, told_row};

impl Store {
    /// Whether the clock of an active call of session `i` says at `now`, with this timeout, both in
    /// microseconds, that it timed out. The queue isn't looked at.
    pub fn has_late(&self, i: usize, now: u64, timeout: u64) -> bool
        requires known { i < length self.now.clients }
        ensures { IfSome (slice_get self.now.clients i)
            (λ x. result ≡ list_any (is_late now timeout) x.calls) }
    {
        self.sides[i].session.has_late(now, timeout)
    }

    /// What the timer rule says at `now` of an active call of session `i`, with this timeout, both
    /// in microseconds. The queue is looked at only where the clock says that the call timed out.
    pub fn timer(&self, i: usize, active: &Active, now: u64, timeout: u64) -> TimerRow
        requires known { i < length self.now.clients }
        requires active { ActiveAt i active.now self.now.clients }
        ensures { RowAt now timeout i active.now.call result self.now }
    {
        match self.sides[i]
            .session
            .check(active.call, now, false, timeout)
        {
            Timer::Quiet => TimerRow::Waits,
            Timer::Roll { .. } | Timer::Lost => self.late_row(i, active, now, timeout),
        }
    }

    // The timer's row of a call that the clock alone doesn't let wait.
    fn late_row(&self, i: usize, active: &Active, now: u64, timeout: u64) -> TimerRow
        requires known { i < length self.now.clients }
        requires active { ActiveAt i active.now self.now.clients }
        ensures { RowAt now timeout i active.now.call result self.now }
    {
        let is_waiting = self.is_waiting(i, active.request, active.got);
        let timer = self.sides[i]
            .session
            .check(active.call, now, is_waiting, timeout);
        told_row(&timer)
    }

    /// An active call of session `i` is rolled back, of which no packet is queued.
    pub fn roll(&mut self, i: usize, call: CallNo)
        requires known { i < length self.old.clients }
        requires may { MayRoll i call self.old }
        ensures { ChangesClients (RollsAt i call) self.old self.new }
    {
        roll_at(&mut self.sides, i, call);
    }

    /// Session `i`, which is Connected, loses its peer; no packet of it is queued.
    pub fn lose_peer(&mut self, i: usize)
        requires known { i < length self.old.clients }
        requires connected { IsConnected (slice_get self.old.clients i) }
        requires idle { IsIdle i self.old.queued }
        ensures { ChangesClient i breaks self.old self.new }
    {
        let side = &mut self.sides[i];
        side.stage = Stage::Broken;
        self.shares -= u32::from(side.session.limit());
    }

    /// The first call of session `i` ends, which lost its peer and has no packet queued. None comes
    /// exactly where no call is left.
    pub fn lose(&mut self, i: usize) -> Option<Done>
        requires known { i < length self.old.clients }
        requires lost { IsLost (slice_get self.old.clients i) }
        requires idle { IsIdle i self.old.queued }
        ensures loses { ChangesCalls (LosesAt i (option_map (λ d. d.call) result))
            (HandsBackIf i result) self.old self.new }
        ensures ended_as { IfSome result (λ d. d.outcome ≡ PeerLost) }
    {
        lose_at(&mut self.sides, i, &mut self.pool)
    }
}
