//! Whether the facts of one node are its making and then a run.
ghost use Rattle.std.specs.Prelude.{ℕ, ◌≡◌, ◌++◌, ◌∷◌, [], ◌↔◌, false, List, IfOk, OnOk, IsTrue};
ghost use Rattle.memory_count.specs.Faults.{HasCause};
ghost use Rattle.rpc_base.specs.declared.fact.Fact.{Fact};
ghost use Rattle.front_laws.specs.Whole.{ends_open};
ghost use Rattle.world_laws.specs.NodeFacts.{Runs};
ghost use Rattle.node_audit.specs.Course.{KeepsCourse};
ghost use Rattle.node_audit.specs.Kept.{Keeps, StandsAt};

use crate::course::Course;
use memory_count::{Memory, NoMemory};
use rpc_base::{Fact, NodeId};
use std::mem;

/// How far a node has come.
#[derive(Drop)]
enum State {
    /// It wasn't made yet: it has no facts.
    Unmade,
    /// Its facts are its making and a run, and maybe the beginning of a poll.
    Goes(Course),
    /// No run begins with its facts.
    Broken,
}

/// What the facts of a node so far leave of it, and whether they are its making and a run.
#[derive(Drop)]
pub struct NodeAudit {
    node: NodeId,
    state: State,
}

fn after_first(memory: &mut Memory, node: NodeId, fact: &Fact) -> Result<State, NoMemory>
    ensures stands { IfOk result (λ new. StandsAt new node (fact.now ∷ [])) }
    ensures cause { HasCause memory.old memory.new result }
{
    match Course::begin(memory, node, fact)? {
        Some(course) => Ok(State::Goes(course)),
        None => Ok(State::Broken),
    }
}

fn after_next(memory: &mut Memory, course: Course, fact: &Fact) -> Result<State, NoMemory>
    ensures stands { IfOk result (λ new. (n : ℕ) (g : List Fact) → KeepsCourse course n g
        → StandsAt new n (g ++ fact.now ∷ [])) }
    ensures cause { HasCause memory.old memory.new result }
{
    let mut course = course;
    if course.note(memory, fact)? {
        Ok(State::Goes(course))
    } else {
        Ok(State::Broken)
    }
}

// What the next fact makes of a state.
fn after(memory: &mut Memory, node: NodeId, state: State, fact: &Fact) -> Result<State, NoMemory>
    ensures stands { IfOk result (λ new. (g : List Fact) → StandsAt state node g
        → StandsAt new node (g ++ fact.now ∷ [])) }
    ensures cause { HasCause memory.old memory.new result }
{
    match state {
        State::Unmade => after_first(memory, node, fact),
        State::Goes(course) => after_next(memory, course, fact),
        State::Broken => Ok(State::Broken),
    }
}

impl NodeAudit {
    /// Before any fact of this node.
    pub fn new(node: NodeId) -> NodeAudit
        ensures { Keeps result node [] }
    {
        NodeAudit {
            node,
            state: State::Unmade,
        }
    }

    /// Takes note of the next fact of the node. `NoMemory` comes only where memory for what it
    /// leaves was refused; the audit is of no use then.
    pub fn note(&mut self, memory: &mut Memory, fact: &Fact) -> Result<(), NoMemory>
        ensures noted { OnOk result ((n : ℕ) (g : List Fact) → Keeps self.old n g
            → Keeps self.new n (g ++ fact.now ∷ [])) }
        ensures cause { HasCause memory.old memory.new result }
    {
        let state = mem::replace(&mut self.state, State::Broken);
        self.state = after(memory, self.node, state, fact)?;
        Ok(())
    }

    /// Whether the facts so far, at whose end the node isn't in the midst of a poll, are its making
    /// and then a run of a node of a script, of the plain service. No facts at all are one too.
    pub fn is_run(&self) -> bool
        ensures { (n : ℕ) (g : List Fact) → Keeps self.now n g → ends_open false g ≡ false
            → IsTrue result ↔ Runs n g }
    {
        match &self.state {
            State::Unmade => true,
            State::Goes(_) => true,
            State::Broken => false,
        }
    }
}
