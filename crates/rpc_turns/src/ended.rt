//! The calls that are over.
ghost use Rattle.std.specs.Prelude.{◌≡◌, ◌≢◌, ◌==◌, ◌++◌, ◌∷◌, [], true, option_to_list, drop};
ghost use Rattle.std.specs.Prelude.{OnErr, OnOk};
ghost use Rattle.memory_count.specs.Faults.{HasCause};
ghost use Rattle.rpc_turns.specs.Queue.{KeepsAll};

use client_core::Done;
use endpoint_loop::Continuation;
use memory_count::{Memory, NoMemory};
use std::alloc::Global;
use std::collections::VecDeque;

/// The calls that are over and weren't taken out yet, in the order of their ends. A call for which
/// there was no memory is lost.
#[derive(Debug, Drop)]
pub struct Ended {
    dones: VecDeque<Done>,
    memory: Memory,
}

impl Ended {
    /// No call is over yet. Takes no memory.
    pub fn new(alloc: Global) -> Ended
        ensures none { KeepsAll result [] }
        ensures whole { result.memory ≡ 0 }
    {
        Ended {
            dones: VecDeque::new(alloc),
            memory: Memory::new(alloc),
        }
    }

    /// Whether there was memory for each call that was over.
    pub fn is_whole(&self) -> bool
        ensures { result ≡ (self.now.memory == 0) }
    {
        self.memory.refused() == 0
    }

    /// Whether there was memory for each call that was over. Each for which there was none is
    /// counted.
    pub fn check(&self, memory: &mut Memory) -> Result<(), NoMemory>
        ensures whole { OnOk result (self.now.memory ≡ 0) }
        ensures lost { OnErr result (self.now.memory ≢ 0) }
        ensures cause { HasCause memory.old memory.new result }
    {
        if self.is_whole() {
            return Ok(());
        }
        memory.add(&self.memory);
        Err(NoMemory)
    }

    /// Takes out the call that was over first.
    pub fn take(&mut self) -> Option<Done>
        ensures items { self.old.dones.items ≡ option_to_list result ++ self.new.dones.items }
        ensures rest { self.new.dones.items ≡ drop 1 self.old.dones.items }
        ensures whole { self.new.memory ≡ self.old.memory }
    {
        self.dones.pop_front()
    }
}

impl Continuation for Ended {
    ghost given = { KeepsAll };

    fn done(&mut self, done: Done) {
        let _kept = self.memory.push_back(&mut self.dones, done);
    }
}
