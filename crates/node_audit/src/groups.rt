//! How far the groups of a life of a node have come.
ghost use Rattle.std.specs.Prelude.{ℕ, ◌≡◌, ◌++◌, ◌∷◌, [], List, IfOk, OnOk, IsTrue, IsFalse};
ghost use Rattle.std.specs.Prelude.{◌↔◌, ◌==◌, ◌&&◌, not, true, length};
ghost use Rattle.front_laws.specs.Whole.{ends_poll, is_polls};
ghost use Rattle.memory_count.specs.Faults.{HasCause};
ghost use Rattle.rpc_base.specs.declared.fact.Fact.{Fact};
ghost use Rattle.rpc_laws.specs.Lives.{no_lives};
ghost use Rattle.rpc_laws.specs.NodeLists.{new_lists, no_counts};
ghost use Rattle.rpc_laws.specs.UsualLimits.{with_ring};
ghost use Rattle.node_audit.specs.Groups.{EndsPoll, GoesOn, IsNew, NotesAlone};

use crate::kinds::{ends_poll, is_polls};
use memory_count::{Memory, NoMemory};
use node_rules::is_group;
use node_tables::apply;
use packet_header::Life;
use poll_steps::poll;
use rpc_base::{Event, Fact, Listed, NodeId, Octets, PEERS};
use rpc_laws::{Counted, Jobs, Lists};
use std::mem;

/// How many jobs a node of a script takes that aren't finished.
const USUAL_JOBS: u32 = 64;

/// The timeout of a node of a script, in microseconds.
const USUAL_TIMEOUT: u64 = 5_000;

/// A node as its last group left it, and the facts of the poll that it is in the midst of.
#[derive(Drop)]
pub struct Groups {
    lists: Lists,
    clock: u64,
    pending: Listed<Fact>,
}

fn copied(memory: &mut Memory, fact: &Fact) -> Result<Fact, NoMemory>
    ensures copy { IfOk result (λ other. other ≡ fact.now) }
    ensures cause { HasCause memory.old memory.new result }
{
    Ok(Fact {
        who: fact.who,
        event: fact.event,
        first: Octets::from(memory.copied(fact.first.bytes())?),
        second: Octets::from(memory.copied(fact.second.bytes())?),
    })
}

// A fact is kept behind others.
fn keep(memory: &mut Memory, facts: &mut Listed<Fact>, fact: &Fact) -> Result<(), NoMemory>
    ensures kept { OnOk result (facts.new ≡ facts.old ++ fact.now ∷ []) }
    ensures cause { HasCause memory.old memory.new result }
{
    let copy = copied(memory, fact)?;
    memory.of(facts.push(copy))
}

fn no_lives(memory: &mut Memory) -> Result<Listed<Life>, NoMemory>
    ensures lives { IfOk result (λ lives. lives ≡ no_lives) }
    ensures cause { HasCause memory.old memory.new result }
{
    match Vec::from_elem(memory.alloc(), Life(0), PEERS) {
        Ok(lives) => Ok(Listed::from(lives)),
        Err(refused) => memory.of(Err(refused)),
    }
}

fn no_counts() -> Counted
    ensures { result ≡ no_counts }
{
    Counted {
        ran: 0,
        given: 0,
        dropped: 0,
        overflowed: 0,
    }
}

// The lists of a node of a script as it is made or restarted.
fn new_lists(memory: &mut Memory, me: NodeId, life: Life, ring: u32) -> Result<Lists, NoMemory>
    ensures lists { IfOk result (λ lists. lists ≡ new_lists me life (with_ring ring)) }
    ensures cause { HasCause memory.old memory.new result }
{
    let known = no_lives(memory)?;
    let alloc = memory.alloc();
    Ok(Lists {
        me,
        life,
        room: ring,
        timeout: USUAL_TIMEOUT,
        asked: 0,
        server_numbers: 0,
        known,
        counts: no_counts(),
        ring: Listed::new(alloc),
        inbox: Listed::new(alloc),
        queued: Listed::new(alloc),
        paces: Listed::new(alloc),
        clients: Listed::new(alloc),
        servers: Listed::new(alloc),
        jobs: Jobs {
            limit: USUAL_JOBS,
            given: 0,
            out: Listed::new(alloc),
        },
    })
}

impl Groups {
    /// A node of a script as it is made or restarted, with a ring of so many places. `NoMemory`
    /// comes only where memory for its lists was refused.
    pub fn new(memory: &mut Memory, me: NodeId, life: Life, ring: u32) -> Result<Groups, NoMemory>
        ensures new { IfOk result (λ groups. IsNew groups me life ring) }
        ensures cause { HasCause memory.old memory.new result }
    {
        Ok(Groups {
            lists: new_lists(memory, me, life, ring)?,
            clock: 0,
            pending: Listed::new(memory.alloc()),
        })
    }

    /// Its number, its life, and the length of its ring.
    pub fn made(&self) -> (NodeId, Life, u32)
        ensures { result ≡ (self.now.lists.me, self.now.lists.life, self.now.lists.room) }
    {
        (self.lists.me, self.lists.life, self.lists.room)
    }

    /// Whether it isn't in the midst of a poll.
    pub fn is_shut(&self) -> bool
        ensures { IsTrue result ↔ (self.now.pending ≡ []) }
    {
        self.pending.is_empty()
    }

    // Whether an event is outside of polls.
    fn is_alone(&self, event: &Event) -> bool
        ensures { result ≡ ((length self.now.pending == 0)
            && (not (is_polls event.now) && not (ends_poll event.now))) }
    {
        self.pending.is_empty() && (!is_polls(event) && !ends_poll(event))
    }

    // Whether a fact outside of a poll is a group of its own.
    fn note_alone(&mut self, memory: &mut Memory, fact: &Fact) -> Result<bool, NoMemory>
        ensures alone { IfOk result (NotesAlone self.old fact.now self.new) }
        ensures cause { HasCause memory.old memory.new result }
    {
        if !is_group(&self.lists, fact) {
            return Ok(false);
        }
        apply(memory, &mut self.lists, self.clock, fact)?;
        Ok(true)
    }

    // Whether the facts of the open poll are one.
    fn end_poll(&mut self, memory: &mut Memory) -> Result<bool, NoMemory>
        ensures ends { IfOk result (EndsPoll self.old self.new) }
        ensures cause { HasCause memory.old memory.new result }
    {
        let facts = mem::replace(&mut self.pending, Listed::new(memory.alloc()));
        let Some(now) = poll(memory, &mut self.lists, self.clock, facts.as_slice())? else {
            return Ok(false);
        };
        self.clock = now;
        Ok(true)
    }

    /// Takes note of the next fact of the life: whether the facts so far are groups, and maybe the
    /// beginning of a poll, still. `NoMemory` comes only where memory for what they leave was
    /// refused.
    pub fn note(&mut self, memory: &mut Memory, fact: &Fact) -> Result<bool, NoMemory>
        ensures goes { IfOk result (λ b. (me life ring : ℕ) (x : List Fact)
            → GoesOn true self.old me life ring x
            → GoesOn b self.new me life ring (x ++ fact.now ∷ [])) }
        ensures cause { HasCause memory.old memory.new result }
    {
        if self.is_alone(&fact.event) {
            return self.note_alone(memory, fact);
        }
        keep(memory, &mut self.pending, fact)?;
        if ends_poll(&fact.event) {
            return self.end_poll(memory);
        }
        Ok(true)
    }
}
