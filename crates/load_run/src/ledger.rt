//! The calls of a load, and how those ended that are over.
ghost use Rattle.std.specs.Prelude.{◌≡◌, ◌≢◌, ◌≤◌, ◌∷◌, [], map, IfOk, OnErr};
ghost use Rattle.std.specs.Prelude.{OnOk, true};
ghost use Rattle.client_core.specs.Shown.{done_event, done_fact, end_bytes};
ghost use Rattle.memory_count.specs.Faults.{HasCause, HasReason};
ghost use Rattle.load_run.specs.Loading.{AreBuffersOf};
ghost use Rattle.load_run.specs.Tallies.{Counts, ends_so};

use crate::tally::{Ending, Tally};
use client_core::{Done, Outcome};
use load_plan::Plan;
use memory_count::{Memory, NoMemory};
use message_buffer::MsgBuf;
use rpc_turns::{Buffers, Ended};

/// The calls of a load, and how those ended that are over.
#[derive(Drop)]
pub struct Ledger {
    pub plan: Plan,
    pub tally: Tally,
}

impl Ledger {
    /// The buffers of call `call`: one with the bytes that it asks, and one with room for its
    /// answer. They are those of a call that is over, where some are spare.
    pub(crate) fn buffers(
        &self,
        memory: &mut Memory,
        buffers: &mut Buffers,
        call: u64,
    ) -> Result<(MsgBuf, MsgBuf), NoMemory>
        ensures buffers { IfOk result (λ b. AreBuffersOf self.now.plan call b.0 b.1) }
        ensures cause { HasCause memory.old memory.new result }
    {
        buffers.pair(memory, self.plan.ask(call), self.plan.room())
    }

    // How a call ended.
    fn ending(&self, done: &Done) -> Ending
        ensures { ends_so self.now.plan result (done_event done.now)
            (end_bytes done.now.outcome done.now.resp) ≡ true }
    {
        match done.outcome {
            Outcome::Ok if self.plan.is_right(done.call.0, done.resp.bytes()) => Ending::Right,
            Outcome::Ok => Ending::Wrong,
            Outcome::TooSmall { .. } => Ending::Small,
            Outcome::PeerLost => Ending::Lost,
        }
    }

    // Counts how a call ended.
    fn count_one(&mut self, done: &Done)
        ensures { Counts (done_fact 0 done.now ∷ []) self.old self.new }
    {
        let ending = self.ending(done);
        self.tally.add(ending);
    }

    // Counts how these calls ended, and gives their buffers back.
    fn count_all(&mut self, memory: &mut Memory, ended: Ended, buffers: &mut Buffers)
        ensures counts { Counts (map (done_fact 0) ended.dones.items) self.old self.new }
        ensures no_less { memory.old ≤ memory.new }
    {
        let mut ended = ended;
        'calls: while let Some(done) = ended.take() {
            self.count_one(&done);
            buffers.give_back(memory, done);
        }
    }

    /// Counts how the calls ended that are over, and gives their buffers back. NoMemory comes
    /// exactly where there was none for one of the calls, and then none is counted.
    pub fn count(
        &mut self,
        memory: &mut Memory,
        ended: Ended,
        buffers: &mut Buffers,
    ) -> Result<(), NoMemory>
        ensures counts { OnOk result (Counts (map (done_fact 0) ended.dones.items) self.old
            self.new) }
        ensures whole { OnOk result (ended.memory ≡ 0) }
        ensures lost { OnErr result (ended.memory ≢ 0) }
        ensures unchanged { OnErr result (self.new ≡ self.old) }
        ensures cause { HasReason memory.old memory.new result }
    {
        ended.check(memory)?;
        self.count_all(memory, ended, buffers);
        Ok(())
    }
}
