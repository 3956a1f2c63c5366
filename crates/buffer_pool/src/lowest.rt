//! Which of many places are empty, so that the lowest is found without a walk over all of them.
ghost use Rattle.std.specs.Prelude.{◌≡◌, ◌<◌, ◌≤◌, ◌+◌, ◌*◌, ℕ, Bool, true, false, List, Some};
ghost use Rattle.std.specs.Prelude.{length, replicate, take, drop, position, slice_set, IfOk, OnOk};
ghost use Rattle.std.specs.Prelude.{◌≢◌, IfSome};
ghost use Rattle.memory_count.specs.Faults.{HasCause};
ghost use Rattle.buffer_pool.specs.Tree.{doubled};

use crate::tree::{first_leaf, join_up, shape_for};
use memory_count::{Memory, NoMemory};
use rpc_base::MOST_REFERENCES;
use std::marker::Model;

/// A truth value for each place: whether it is empty. Contracts see the list of these. Finding the
/// lowest empty place takes one step where that is the first place that may be empty, which is
/// kept, and otherwise, as changing a place at most does, a step for each doubling of their number.
#[derive(Debug, Drop)]
pub struct LowestEmpty {
    tree: Vec<bool>,
    leaves: usize,
    height: u32,
    places: u32,
    from: u32,
}

impl Model for LowestEmpty {
    ghost use Rattle.std.specs.Prelude.{List, Bool};
    ghost use Rattle.buffer_pool.specs.Tree.{leaves_in, FitsTree, NoneBelow};

    ghost Value = { List Bool };

    ghost view = { λ t. leaves_in t.tree.items t.leaves t.places };

    ghost invariant = { λ t. FitsTree t.tree.items t.leaves t.height t.places
        × NoneBelow t.tree.items t.leaves t.from };
}

/// The first place that may be empty, once a place is or isn't.
fn from_after(from: u32, place: u32, empty: bool) -> u32
    requires { place < MOST_REFERENCES }
    ensures others { (k : ℕ) → k < result → k ≢ place → k < from }
    ensures own { place < result → empty ≡ false }
{
    if empty {
        from.min(place)
    } else if place == from {
        from + 1
    } else {
        from
    }
}

impl LowestEmpty {
    /// So many places, all empty. `NoMemory` comes only where memory was refused.
    pub fn new(memory: &mut Memory, places: u32) -> Result<LowestEmpty, NoMemory>
        ensures made { IfOk result (λ t. t ≡ replicate places true) }
        ensures cause { HasCause memory.old memory.new result }
    {
        let mut all = LowestEmpty::none_empty(memory, places)?;
        for place in 0..places {
            all.set(place, true);
        }
        Ok(all)
    }

    fn none_empty(memory: &mut Memory, places: u32) -> Result<LowestEmpty, NoMemory>
        ensures made { IfOk result (λ t. t ≡ replicate places false) }
        ensures cause { HasCause memory.old memory.new result }
    {
        let (height, leaves) = shape_for(places);
        let alloc = memory.alloc();
        let tree = memory.of(vec![in alloc; false; 2 * leaves])?;
        Ok(LowestEmpty {
            tree,
            leaves,
            height,
            places,
            from: 0,
        })
    }

    /// The lowest empty place, or `None` where no place is empty.
    pub fn lowest(&self) -> Option<u32>
        ensures { result ≡ position (λ empty. empty) self.now }
    {
        match self.first() {
            Some(place) => Some(place),
            None => self.search(),
        }
    }

    // The first place that may be empty, where it is.
    fn first(&self) -> Option<u32>
        ensures { IfSome result (λ place. Some place ≡ position (λ empty. empty) self.now) }
    {
        if self.from >= self.places {
            return None;
        }
        if !self.tree[self.leaves + self.from as usize] {
            return None;
        }
        Some(self.from)
    }

    // The lowest empty place, by a walk from the root.
    fn search(&self) -> Option<u32>
        ensures { result ≡ position (λ empty. empty) self.now }
    {
        if !self.tree[1] {
            return None;
        }
        let leaf = first_leaf(&self.tree, self.height);
        Some((leaf - self.leaves) as u32)
    }

    /// Says of a place whether it is empty from now on.
    pub fn set(&mut self, place: u32, empty: bool)
        requires { place < length self.old }
        ensures { self.new ≡ slice_set self.old place empty }
    {
        let leaf = self.leaves + place as usize;
        self.tree[leaf] = empty;
        join_up(self.tree.as_mut_slice(), leaf / 2);
        self.from = from_after(self.from, place, empty);
    }
}
