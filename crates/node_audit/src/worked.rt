//! Whether each background job of a life of a node is worked once.
ghost use Rattle.std.specs.Prelude.{◌≡◌, ◌++◌, ◌∷◌, [], ◌↔◌, List, IsTrue, OnOk, OnErr};
ghost use Rattle.memory_count.specs.Faults.{HasCause};
ghost use Rattle.node_audit.specs.Worked.{AreWorked, is_new, WorkedOnce};
ghost use Rattle.rpc_base.specs.declared.fact.Fact.{Fact};

use memory_count::{Memory, NoMemory};
use rpc_base::{Event, Fact};
use std::alloc::{AllocError, Global};
use std::collections::HashSet;

/// The jobs that were worked in a life of a node so far, each by its session and request.
#[derive(Drop)]
pub struct WorkedJobs {
    jobs: HashSet<(u16, u64)>,
}

impl WorkedJobs {
    /// None, at the beginning of the life.
    pub fn new(alloc: Global) -> WorkedJobs
        ensures { AreWorked result.jobs.keys [] }
    {
        WorkedJobs {
            jobs: HashSet::new(alloc),
        }
    }

    // Whether an event works none of the jobs that were worked.
    fn is_new(&self, event: &Event) -> bool
        ensures { result ≡ is_new self.now.jobs.keys event.now }
    {
        match event {
            Event::Worked { session, request } => {
                !self.jobs.contains(&(session.0, request.get()))
            }
            _ => true,
        }
    }

    /// Whether no job is worked twice still, where the next fact of the life is this one.
    pub fn keeps_once(&self, fact: &Fact) -> bool
        ensures { (g : List Fact) → AreWorked self.now.jobs.keys g → WorkedOnce g
            → IsTrue result ↔ WorkedOnce (g ++ fact.now ∷ []) }
    {
        self.is_new(&fact.event)
    }

    /// Takes note of the next fact of the life. `NoMemory` comes only where memory for one more job
    /// was refused, and then nothing changed.
    pub fn note(&mut self, memory: &mut Memory, fact: &Fact) -> Result<(), NoMemory>
        ensures noted { OnOk result ((g : List Fact) → AreWorked self.old.jobs.keys g
            → AreWorked self.new.jobs.keys (g ++ fact.now ∷ [])) }
        ensures unchanged { OnErr result (self.new.jobs.keys ≡ self.old.jobs.keys) }
        ensures cause { HasCause memory.old memory.new result }
    {
        let Event::Worked { session, request } = &fact.event else {
            return Ok(());
        };
        match self.jobs.insert((session.0, request.get())) {
            Ok(_) => Ok(()),
            Err(failed) => memory.of(Err(AllocError::from(failed))),
        }
    }
}
