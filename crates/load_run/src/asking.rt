//! Calls are asked before a turn, and the session is closed once all are over.
ghost use Rattle.std.specs.Prelude.{◌≡◌, ◌+◌, ◌<◌, OnErr, OnOk};
ghost use Rattle.node_steps.specs.Notes.{Makes};
ghost use Rattle.memory_count.specs.Faults.{HasReason};
ghost use Rattle.load_plan.specs.Calls.{asked_bytes, room_of};
ghost use Rattle.load_run.specs.Loading.{AsksMany, ClosesIdle, Keeps, PassesTo, Prepares};
ghost use Rattle.load_run.specs.Loading.{state_in, unasked};
ghost use Rattle.rpc_turns.specs.Plain.{GoesOnBy};
ghost use Rattle.rpc_base.specs.declared.state.SessionState.TheVariants.{Connected};
ghost use Rattle.rpc_laws.specs.Groups.{Asks};

use crate::run::LoadRun;
use memory_count::{Memory, NoMemory};
use rpc_base::SessionState;
use rpc_outside::Recorder;
use std::sync::Wait;

/// No more calls are pending at a time.
const MOST_PENDING: u64 = 64;

impl<H: Wait> LoadRun<H> {
    // Asks the next call. NoMemory comes only where memory was refused, and then nothing happened.
    fn ask_next<R: Recorder>(&mut self, memory: &mut Memory, rec: &mut R) -> Result<(), NoMemory>
        requires left { 0 < unasked self.old }
        requires connected { state_in self.old ≡ Connected }
        ensures asks { OnOk result (Makes R.log (Asks self.old.session
            self.old.ledger.plan.req_type (asked_bytes self.old.ledger.plan self.old.asked)
            (room_of self.old.ledger.plan)) self.old.endpoint.timed self.new.endpoint.timed
            rec.old rec.new) }
        ensures passes { OnOk result (PassesTo R.log self.old self.new rec.old rec.new) }
        ensures wanting { OnErr result ((self.new ≡ self.old) × (rec.new ≡ rec.old)) }
        ensures counted { OnOk result (self.new.asked ≡ self.old.asked + 1) }
        ensures keeps { Keeps self.old self.new }
        ensures goes_on { GoesOnBy R.log self.old.endpoint self.new.endpoint rec.old rec.new }
        ensures cause { HasReason memory.old memory.new result }
    {
        let tag = u64::from(self.asked);
        let req_type = self.ledger.plan.req_type;
        let (req, resp) = self.ledger.buffers(memory, &mut self.buffers, tag)?;
        match self
            .endpoint
            .ask(memory, self.session, req_type, req, resp, tag, rec)
        {
            Ok(_call) => {
                self.asked += 1;
                Ok(())
            }
            // The session is Connected, and the request not too large.
            Err(_wanting) => Err(NoMemory),
        }
    }

    // Asks calls while the session is Connected, until 64 are pending or all are asked.
    fn ask_many<R: Recorder>(&mut self, memory: &mut Memory, rec: &mut R) -> Result<(), NoMemory>
        ensures asks { OnOk result (AsksMany R.log self.old self.new rec.old rec.new) }
        ensures passes { OnOk result (PassesTo R.log self.old self.new rec.old rec.new) }
        ensures keeps { Keeps self.old self.new }
        ensures goes_on { GoesOnBy R.log self.old.endpoint self.new.endpoint rec.old rec.new }
        ensures cause { HasReason memory.old memory.new result }
    {
        'calls: while self.state() == SessionState::Connected
            && self.unasked() > 0
            && self.pending() < MOST_PENDING
        {
            self.ask_next(memory, rec)?;
        }
        Ok(())
    }

    // Begins to close the session where no call is pending.
    fn close_idle<R: Recorder>(&mut self, rec: &mut R)
        ensures closes { ClosesIdle R.log self.old self.new rec.old rec.new }
        ensures asked { self.new.asked ≡ self.old.asked }
        ensures keeps { Keeps self.old self.new }
        ensures passes { PassesTo R.log self.old self.new rec.old rec.new }
    {
        if self.pending() == 0 {
            // Nothing is pending: it isn't refused.
            let _closing = self.endpoint.disconnect(self.session, rec);
        }
    }

    /// What is done before a turn of the endpoint: where the session is Connected, calls are asked
    /// until 64 are pending or all are asked, and then the session begins to close where none is
    /// pending.
    pub(crate) fn prepare<R: Recorder>(
        &mut self,
        memory: &mut Memory,
        rec: &mut R,
    ) -> Result<(), NoMemory>
        ensures prepares { OnOk result (Prepares R.log self.old self.new rec.old rec.new) }
        ensures passes { OnOk result (PassesTo R.log self.old self.new rec.old rec.new) }
        ensures keeps { Keeps self.old self.new }
        ensures goes_on { GoesOnBy R.log self.old.endpoint self.new.endpoint rec.old rec.new }
        ensures cause { HasReason memory.old memory.new result }
    {
        if self.state() != SessionState::Connected {
            return Ok(());
        }
        self.ask_many(memory, rec)?;
        self.close_idle(rec);
        Ok(())
    }
}
