//! The life of each node.
ghost use Rattle.std.specs.Prelude.{◌≡◌, ◌++◌, ◌∷◌, [], List, IfOk, MatchOption, slice_set};
ghost use Rattle.std.specs.Prelude.{vec_len};
ghost use Rattle.call_book.specs.SoFar.{so_far};
ghost use Rattle.history_audit.specs.declared.numbers.TheConstants.{NODES};
ghost use Rattle.history_audit.specs.Lives.{AreLives, begun_life, TellsNextLife};
ghost use Rattle.memory_count.specs.Faults.{HasCause};
ghost use Rattle.rpc_base.specs.declared.fact.Fact.{Fact};
ghost use Rattle.rpc_laws.specs.Endpoints.{life_at};

use crate::numbers::NODES;
use memory_count::{Memory, NoMemory};
use packet_header::FIRST_LIFE;
use rpc_base::{Event, Fact, Who};

/// The life of each node after the facts so far, by its number.
#[derive(Drop)]
pub struct Lives {
    lives: Vec<u32>,
    ghost many: { vec_len lives ≡ NODES },
}

// Which life begins by an event, if one does.
fn begun_life(event: &Event) -> Option<u32>
    ensures { result ≡ begun_life event.now }
{
    match event {
        Event::Restarted { life } => Some(*life),
        _ => None,
    }
}

impl Lives {
    /// Before any fact. `NoMemory` comes only where memory for the lives was refused.
    pub fn new(memory: &mut Memory) -> Result<Lives, NoMemory>
        ensures none { IfOk result (λ l. AreLives l.lives.items []) }
        ensures cause { HasCause memory.old memory.new result }
    {
        match Vec::from_elem(memory.alloc(), FIRST_LIFE, NODES) {
            Ok(lives) => Ok(Lives { lives }),
            Err(refused) => memory.of(Err(refused)),
        }
    }

    /// The life of the node whose fact is next, 0 of the network.
    pub fn at(&self, who: Who) -> u32
        ensures { (h : List Fact) → AreLives self.now.lives.items h
            → result ≡ life_at who (so_far h) }
    {
        match who {
            Who::Node(node) => self.lives[usize::from(node.0)],
            Who::Net => 0,
        }
    }

    // A node is in this life, where it began one.
    fn restart(&mut self, node: u8, life: Option<u32>)
        ensures { MatchOption life (self.new.lives.items ≡ self.old.lives.items)
            (λ l. self.new.lives.items ≡ slice_set self.old.lives.items node l) }
    {
        if let Some(life) = life {
            self.lives[usize::from(node)] = life;
        }
    }

    /// Takes note of the next fact, which tells the next life where it restarts its node.
    pub fn note(&mut self, fact: &Fact)
        ensures { (h : List Fact) → AreLives self.old.lives.items h → TellsNextLife h fact.now
            → AreLives self.new.lives.items (h ++ fact.now ∷ []) }
    {
        match fact.who {
            Who::Node(node) => self.restart(node.0, begun_life(&fact.event)),
            Who::Net => {}
        }
    }
}
