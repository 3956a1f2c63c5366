//! What each place is used for, how many are empty, and which of these is the lowest.
ghost use Rattle.std.specs.Prelude.{◌≡◌, ◌<◌, ◌+◌, ℕ, true, false, List, Some, length, replicate};
ghost use Rattle.std.specs.Prelude.{position, count_by, slice_get, slice_set, IfOk};
ghost use Rattle.memory_count.specs.Faults.{HasCause};
ghost use Rattle.buffer_pool.specs.declared.usage.Use.{Use};
ghost use Rattle.buffer_pool.specs.declared.usage.Use.TheVariants.{Empty};
ghost use Rattle.buffer_pool.specs.Uses.{is_empty};

use crate::lowest::LowestEmpty;
use crate::usage::Use;
use memory_count::{Memory, NoMemory};
use rpc_base::MOST_REFERENCES;
use std::marker::Model;

/// The uses of all places, in order. Contracts see the list of these.
#[derive(Debug, Drop)]
pub struct Places {
    uses: Vec<Use>,
    empties: LowestEmpty,
    spare: u32,
}

impl Model for Places {
    ghost use Rattle.std.specs.Prelude.{List};
    ghost use Rattle.buffer_pool.specs.declared.usage.Use.{Use};
    ghost use Rattle.buffer_pool.specs.Uses.{CountsEmpty};

    ghost Value = { List Use };

    ghost view = { λ p. p.uses.items };

    ghost invariant = { λ p. CountsEmpty p.uses.items p.empties p.spare };
}

impl Places {
    /// So many empty places. `NoMemory` comes only where memory was refused.
    pub fn new(memory: &mut Memory, places: u32) -> Result<Places, NoMemory>
        ensures made { IfOk result (λ p. p ≡ replicate places Empty) }
        ensures cause { HasCause memory.old memory.new result }
    {
        let alloc = memory.alloc();
        let uses = memory.of(vec![in alloc; Use::Empty; places as usize])?;
        let empties = LowestEmpty::new(memory, places)?;
        Ok(Places {
            uses,
            empties,
            spare: places,
        })
    }

    /// How many places are empty.
    pub fn spare(&self) -> u32
        ensures { result ≡ count_by is_empty self.now }
    {
        self.spare
    }

    /// The lowest empty place.
    pub fn lowest(&self) -> Option<u32>
        ensures { result ≡ position is_empty self.now }
    {
        self.empties.lowest()
    }

    /// What a place is used for.
    pub fn at(&self, place: u32) -> Use
        requires { place < length self.now }
        ensures { slice_get self.now place ≡ Some result }
    {
        self.uses[place as usize]
    }

    /// Puts a place to another use.
    pub fn set(&mut self, place: u32, next: Use)
        requires { place < length self.old }
        ensures { self.new ≡ slice_set self.old place next }
    {
        let was_empty = self.uses[place as usize].is_empty();
        let is_empty = next.is_empty();
        self.uses[place as usize] = next;
        if was_empty != is_empty {
            self.empties.set(place, is_empty);
            self.spare = recount(self.spare, is_empty);
        }
    }
}

/// The count of empty places, once one more is empty or full.
fn recount(spare: u32, is_empty: bool) -> u32
    requires more { is_empty ≡ true → spare < MOST_REFERENCES }
    requires fewer { is_empty ≡ false → 0 < spare }
    ensures more { is_empty ≡ true → result ≡ spare + 1 }
    ensures fewer { is_empty ≡ false → result + 1 ≡ spare }
{
    if is_empty { spare + 1 } else { spare - 1 }
}
