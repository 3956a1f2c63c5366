//! A node from its making on, life after life.
ghost use Rattle.std.specs.Prelude.{ℕ, ◌≡◌, ◌++◌, ◌∷◌, [], List, IfOk, IfSome, IfNone, IsTrue};
ghost use Rattle.std.specs.Prelude.{◌+◌, ◌↔◌, ◌==◌, true, false};
ghost use Rattle.memory_count.specs.Faults.{HasCause};
ghost use Rattle.rpc_base.specs.declared.event.Event.TheVariants.{Made, Restarted};
ghost use Rattle.rpc_base.specs.declared.fact.Fact.{Fact};
ghost use Rattle.rpc_laws.specs.Endpoints.{begins_life};
ghost use Rattle.rpc_laws.specs.Facts.{plain};
ghost use Rattle.rpc_laws.specs.Lives.{first_life};
ghost use Rattle.node_audit.specs.Course.{Begins, IsGoing};

use crate::groups::Groups;
use crate::handled::Handled;
use memory_count::{Memory, NoMemory};
use packet_header::{FIRST_LIFE, Life};
use rpc_base::{Event, Fact, NodeId, Who};
use std::alloc::Global;

/// How far a node has come: its groups, and what was handled, in its present life.
#[derive(Drop)]
pub struct Course {
    groups: Groups,
    handled: Handled,
}

// Whether a fact is a node's, with no bytes.
fn is_plain(fact: &Fact, me: NodeId) -> bool
    ensures { IsTrue result ↔ (fact.now ≡ plain me fact.now.event) }
{
    let Who::Node(node) = fact.who else {
        return false;
    };
    node.0 == me.0 && fact.first.is_empty() && fact.second.is_empty()
}

// Whether a life comes right behind another.
fn follows(next: u32, life: Life) -> bool
    ensures { result ≡ (next == life + 1) }
{
    u64::from(next) == u64::from(life.0) + 1
}

// Whether a fact is a restart of a node to the life that follows this one.
fn is_restart(fact: &Fact, me: NodeId, life: Life) -> bool
    ensures { IsTrue result ↔ (fact.now ≡ plain me (Restarted (life + 1))) }
{
    let Event::Restarted { life: next } = fact.event else {
        return false;
    };
    is_plain(fact, me) && follows(next, life)
}

// The ring that a node is made with, where a fact is its making.
fn made_ring(fact: &Fact, me: NodeId) -> Option<u32>
    ensures some { IfSome result (λ ring. fact.now ≡ plain me (Made ring)) }
    ensures none { IfNone result ((ring : ℕ) → fact.now ≡ plain me (Made ring) → ⊥) }
{
    let Event::Made { ring } = fact.event else {
        return None;
    };
    if is_plain(fact, me) { Some(ring) } else { None }
}

impl Course {
    /// That of a node whose first fact is this one. `None` comes exactly where that isn't its
    /// making, and `NoMemory` only where memory for its lists was refused.
    pub fn begin(memory: &mut Memory, me: NodeId, fact: &Fact) -> Result<Option<Course>, NoMemory>
        ensures begins { IfOk result (Begins me (fact.now ∷ [])) }
        ensures cause { HasCause memory.old memory.new result }
    {
        let Some(ring) = made_ring(fact, me) else {
            return Ok(None);
        };
        Ok(Some(Course {
            groups: Groups::new(memory, me, Life(FIRST_LIFE), ring)?,
            handled: Handled::new(memory.alloc()),
        }))
    }

    // Takes note of a fact at which a life with this number begins.
    fn restart(&mut self, memory: &mut Memory, fact: &Fact, next: u32) -> Result<bool, NoMemory>
        requires { fact.now.event ≡ Restarted next }
        ensures goes { IfOk result (λ b. (me : ℕ) (g : List Fact) → IsGoing true self.old me g
            → IsGoing b self.new me (g ++ fact.now ∷ [])) }
        ensures cause { HasCause memory.old memory.new result }
    {
        if !self.groups.is_shut() {
            return Ok(false);
        }
        let (me, life, ring) = self.groups.made();
        if !is_restart(fact, me, life) {
            return Ok(false);
        }
        let groups = Groups::new(memory, me, Life(next), ring)?;
        self.groups = groups;
        self.handled.restart(memory.alloc());
        Ok(true)
    }

    // Takes note of a fact of the present life.
    fn go_on(&mut self, memory: &mut Memory, fact: &Fact) -> Result<bool, NoMemory>
        requires { begins_life fact.now.event ≡ false }
        ensures goes { IfOk result (λ b. (me : ℕ) (g : List Fact) → IsGoing true self.old me g
            → IsGoing b self.new me (g ++ fact.now ∷ [])) }
        ensures cause { HasCause memory.old memory.new result }
    {
        if !self.handled.keeps(memory, fact)? {
            return Ok(false);
        }
        self.handled.note(memory, fact)?;
        self.groups.note(memory, fact)
    }

    /// Takes note of the next fact: whether the facts so far are a run, and maybe the beginning of
    /// a poll, still. `NoMemory` comes only where memory for what they leave was refused.
    pub fn note(&mut self, memory: &mut Memory, fact: &Fact) -> Result<bool, NoMemory>
        ensures goes { IfOk result (λ b. (me : ℕ) (g : List Fact) → IsGoing true self.old me g
            → IsGoing b self.new me (g ++ fact.now ∷ [])) }
        ensures cause { HasCause memory.old memory.new result }
    {
        match fact.event {
            Event::Restarted { life } => self.restart(memory, fact, life),
            _ => self.go_on(memory, fact),
        }
    }
}
