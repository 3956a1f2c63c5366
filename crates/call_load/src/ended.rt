//! The calls that are over after a turn.
ghost use Rattle.std.specs.Prelude.{◌≡◌, ◌==◌};
ghost use Rattle.memory_count.specs.Faults.{HasCause};

use client_core::Done;
use endpoint_loop::Continuation;
use memory_count::{Memory, NoMemory};

/// The calls that are over and weren't taken out yet.
#[derive(Drop)]
pub struct Ended {
    dones: Vec<Done>,
    memory: Memory,
}

impl Ended {
    /// None is over. It takes the memory for so many.
    pub fn new(memory: &mut Memory, most: u32) -> Result<Ended, NoMemory>
        ensures cause { HasCause memory.old memory.new result }
    {
        Ok(Ended {
            dones: memory.list(most as usize)?,
            memory: Memory::new(memory.alloc()),
        })
    }

    /// Whether there was memory for each that was over.
    pub fn whole(&self) -> bool
        ensures { result ≡ (self.now.memory == 0) }
    {
        self.memory.refused() == 0
    }

    /// Takes one out.
    pub fn take(&mut self) -> Option<Done> {
        self.dones.pop()
    }
}

impl Continuation for Ended {
    fn done(&mut self, done: Done) {
        let _kept = self.memory.push(&mut self.dones, done);
    }
}
