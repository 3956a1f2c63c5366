//! A continuation that keeps what it is given.
use client_core::Done;
use endpoint_loop::Continuation;
use memory_count::Memory;
use std::alloc::Global;

/// The calls that ended, with their buffers.
#[derive(Drop)]
pub struct Kept {
    dones: Vec<Done>,
    memory: Memory,
}

impl Kept {
    pub fn new(alloc: Global) -> Kept {
        Kept {
            dones: Vec::new(alloc),
            memory: Memory::new(alloc),
        }
    }

    /// The call that ended as number `i`, from 0 on.
    pub fn done(&self, i: usize) -> Option<&Done> {
        self.dones.get(i)
    }

    /// How many calls ended; `None` where there was no memory for one of them.
    pub fn count(&self) -> Option<usize> {
        if self.memory.refused() == 0 {
            Some(self.dones.len())
        } else {
            None
        }
    }
}

impl Continuation for Kept {
    fn done(&mut self, done: Done) {
        let _kept = self.memory.push(&mut self.dones, done);
    }
}
