//! A recorder that keeps facts, and one that keeps none.
ghost use Rattle.std.specs.Prelude.{◌≡◌, ◌==◌, true, Some, None, [], ◌∷◌, ◌++◌, OnOk};
ghost use Rattle.memory_count.specs.Faults.{HasCause};

use crate::recorder::Recorder;
use memory_count::{Memory, NoMemory};
use rpc_base::{Event, Fact, Octets, Who};
use std::alloc::Global;

/// A recorder that keeps facts in memory. It is whole as long as it was refused none.
#[derive(Debug, Drop)]
pub struct MemRecorder {
    facts: Vec<Fact>,
    memory: Memory,
}

impl MemRecorder {
    /// A recorder without facts. Takes no memory yet.
    pub fn new(alloc: Global) -> MemRecorder
        ensures facts { result.facts.items ≡ [] }
        ensures whole { result.memory ≡ 0 }
    {
        MemRecorder {
            facts: Vec::new(alloc),
            memory: Memory::new(alloc),
        }
    }

    /// The facts noted so far; the first of them where the recorder isn't whole.
    pub fn facts(&self) -> &[Fact]
        ensures { result.now ≡ self.now.facts.items }
    {
        self.facts.as_slice()
    }

    /// Whether every fact was kept: there was memory for each.
    pub fn whole(&self) -> bool
        ensures { result ≡ (self.now.memory == 0) }
    {
        self.memory.refused() == 0
    }

    /// Its memory, which tells how often it was refused.
    pub fn memory(&self) -> &Memory
        ensures { result.now ≡ self.now.memory }
    {
        &self.memory
    }

    /// Gives the facts out.
    pub fn into_facts(self) -> Vec<Fact>
        ensures { result.items ≡ self.facts.items }
    {
        let MemRecorder { facts, memory: _ } = self;
        facts
    }

    fn keep(&mut self, who: Who, event: Event, first: &[u8], second: &[u8]) -> Result<(), NoMemory>
        ensures cause { HasCause self.old.memory self.new.memory result }
        ensures kept { OnOk result (self.new.facts.items
            ≡ self.old.facts.items ++ record {
              who = who;
              event = event;
              first = first.now;
              second = second.now;
            } ∷ []) }
    {
        let first = Octets::from(self.memory.copied(first)?);
        let second = Octets::from(self.memory.copied(second)?);
        let fact = Fact {
            who,
            event,
            first,
            second,
        };
        self.memory.push(&mut self.facts, fact)
    }
}

impl Recorder for MemRecorder {
    ghost log = { λ r. record { facts = Some r.facts.items; whole = r.memory == 0 } };

    fn note(&mut self, who: Who, event: Event, first: &[u8], second: &[u8]) {
        // What comes after a fact that was lost is kept no more: the facts stay a front of the
        // history.
        if self.whole() {
            let _kept = self.keep(who, event, first, second);
        }
    }
}

/// A recorder that keeps nothing and tells nothing.
#[derive(Clone, Copy, Debug, PartialEq, Eq)]
pub struct NoRecord;

impl Recorder for NoRecord {
    ghost log = { λ _. record { facts = None; whole = true } };

    fn note(&mut self, _who: Who, _event: Event, _first: &[u8], _second: &[u8]) {}
}
