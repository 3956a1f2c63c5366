//! What was handled in a life of a node: the jobs that were worked, and the tallies.
ghost use Rattle.std.specs.Prelude.{◌≡◌, ◌++◌, ◌∷◌, [], ◌↔◌, List, IsTrue, IfOk, OnOk};
ghost use Rattle.memory_count.specs.Faults.{HasCause};
ghost use Rattle.rpc_base.specs.declared.fact.Fact.{Fact};
ghost use Rattle.rpc_laws.specs.Service.{plain_serving, AnswersAt};
ghost use Rattle.rpc_outside.specs.PlainAnswer.{total_of};
ghost use Rattle.rpc_outside.specs.Served.{Served};
ghost use Rattle.node_audit.specs.Handled.{IsHandled, KeepsHandled, total_after};

use crate::answers::{is_answer, total_with};
use crate::worked::WorkedJobs;
use memory_count::{Memory, NoMemory};
use rpc_base::{Event, Fact};
use std::alloc::Global;

/// The jobs that were worked, and the total of the tallies modulo 2^64.
#[derive(Drop)]
pub struct Handled {
    worked: WorkedJobs,
    total: u64,
}

// The total after a fact.
fn total_after(total: u64, fact: &Fact) -> u64
    ensures { result ≡ total_after total fact.now.event fact.now.first }
{
    match fact.event {
        Event::Ran { req_type, .. } => total_with(total, req_type, fact.first.bytes()),
        Event::Restarted { .. } => 0,
        _ => total,
    }
}

// Whether the answer that a fact tells, where it tells one, is the plain service's.
fn has_answer(memory: &mut Memory, total: u64, fact: &Fact) -> Result<bool, NoMemory>
    ensures answer { IfOk result (λ b. (served : Served) → total ≡ total_of served
        → IsTrue b ↔ AnswersAt plain_serving served fact.now.event fact.now.first
        fact.now.second) }
    ensures cause { HasCause memory.old memory.new result }
{
    match fact.event {
        Event::Ran { req_type, .. } => {
            is_answer(
                memory,
                total,
                req_type,
                fact.first.bytes(),
                fact.second.bytes(),
            )
        }
        _ => Ok(true),
    }
}

impl Handled {
    /// Nothing, at the beginning of the life.
    pub fn new(alloc: Global) -> Handled
        ensures { KeepsHandled result [] }
    {
        Handled {
            worked: WorkedJobs::new(alloc),
            total: 0,
        }
    }

    /// Nothing, as a life begins.
    pub fn restart(&mut self, alloc: Global)
        ensures { KeepsHandled self.new [] }
    {
        self.worked = WorkedJobs::new(alloc);
        self.total = 0;
    }

    /// Whether no job is worked twice and each answer is the plain service's still, where the next
    /// fact of the life is this one. `NoMemory` comes only where memory to compare an answer was
    /// refused.
    pub fn keeps(&self, memory: &mut Memory, fact: &Fact) -> Result<bool, NoMemory>
        ensures keeps { IfOk result (λ b. (x : List Fact) → KeepsHandled self.now x → IsHandled x
            → IsTrue b ↔ IsHandled (x ++ fact.now ∷ [])) }
        ensures cause { HasCause memory.old memory.new result }
    {
        let answered = has_answer(memory, self.total, fact)?;
        Ok(self.worked.keeps_once(fact) && answered)
    }

    /// Takes note of the next fact of the life. `NoMemory` comes only where memory for one more job
    /// was refused.
    pub fn note(&mut self, memory: &mut Memory, fact: &Fact) -> Result<(), NoMemory>
        ensures noted { OnOk result ((x : List Fact) → KeepsHandled self.old x
            → KeepsHandled self.new (x ++ fact.now ∷ [])) }
        ensures cause { HasCause memory.old memory.new result }
    {
        self.worked.note(memory, fact)?;
        self.total = total_after(self.total, fact);
        Ok(())
    }
}
