//! The allocator, and the count of its refusals.
ghost use Rattle.std.specs.Prelude.{◌≡◌, ◌<◌, ◌++◌, ◌∷◌, [], IfErr, IfOk, IsOk};
ghost use Rattle.std.specs.Prelude.{OnErr, OnOk, vec_capacity, vec_len};
ghost use Rattle.std.specs.Result.{result_ok};
ghost use Rattle.std.specs.VecDeque.{deque_capacity};
ghost use Rattle.memory_count.specs.Faults.{HasCause, HasRisen, HasRisenBy};

use crate::no_memory::NoMemory;
use std::alloc::{AllocError, AllocFailed, Global};
use std::collections::VecDeque;
use std::marker::Model;

/// The allocator, and how often it refused memory, which is what contracts see of it. The count
/// stops at 2^64 - 1. No contract can speak of what an allocator does, so that the count rises only
/// where memory was refused is not proved: each call below counts an error of the allocator's, and
/// nothing else, and no other crate makes an `AllocError`.
#[derive(Debug, Drop)]
pub struct Memory {
    alloc: Global,
    refused: u64,
}

impl Model for Memory {
    ghost use Rattle.std.specs.Prelude.{ℕ};

    ghost Value = { ℕ };

    ghost view = { λ m. m.refused };
}

impl Memory {
    /// Memory of which none was refused yet.
    pub fn new(alloc: Global) -> Memory
        ensures { result ≡ 0 }
    {
        Memory { alloc, refused: 0 }
    }

    /// How often memory was refused.
    pub fn refused(&self) -> u64
        ensures { result ≡ self.now }
    {
        self.refused
    }

    /// Counts the refusals of another memory too, which is done with.
    pub fn add(&mut self, other: &Memory)
        ensures { HasRisenBy other.now self.old self.new }
    {
        self.refused = self.refused.saturating_add(other.refused);
    }

    /// The allocator, for what takes no memory yet, and for what `of` and `kept` count.
    pub fn alloc(&self) -> Global {
        self.alloc
    }

    /// What was asked of the allocator: its error is counted.
    pub fn of<T>(&mut self, asked: Result<T, AllocError>) -> Result<T, NoMemory>
        ensures made { result_ok result ≡ result_ok asked }
        ensures cause { HasCause self.old self.new result }
    {
        match asked {
            Ok(made) => Ok(made),
            Err(_) => {
                self.refused = self.refused.saturating_add(1);
                Err(NoMemory)
            }
        }
    }

    /// Whether what was to be kept is kept: the allocator's error is counted, and hands it back.
    pub fn kept<T>(&mut self, asked: Result<(), AllocFailed<T>>) -> Result<(), T>
        ensures ok { result_ok result ≡ result_ok asked }
        ensures back { IfErr result (λ x. IfErr asked (λ failed. x ≡ failed.value)) }
        ensures cause { HasCause self.old self.new result }
    {
        match asked {
            Ok(()) => Ok(()),
            Err(failed) => {
                self.refused = self.refused.saturating_add(1);
                let AllocFailed { value } = failed;
                Err(value)
            }
        }
    }

    /// Counts a refusal that no `AllocError` told: `clap` tells it by a kind of its errors,
    /// `atomic_table` by a `Refused`, and a count of facts that 64 bits can't hold is of more facts
    /// than memory holds. That memory was refused then is trusted, so only `command_line`,
    /// `shared_pool` and `node_tables` call this, and only at these.
    pub fn told(&mut self) -> NoMemory
        ensures cause { HasRisen self.old self.new }
    {
        self.refused = self.refused.saturating_add(1);
        NoMemory
    }

    /// An empty list with room for so many items.
    pub fn list<T>(&mut self, capacity: usize) -> Result<Vec<T>, NoMemory>
        ensures empty { IfOk result (λ l. l.items ≡ []) }
        ensures capacity { IfOk result (λ l. vec_capacity l ≡ capacity) }
        ensures succeeds { capacity ≡ 0 → IsOk result }
        ensures cause { HasCause self.old self.new result }
    {
        let made = Vec::with_capacity(self.alloc, capacity);
        self.of(made)
    }

    /// A list with these items.
    pub fn copied<T: Copy>(&mut self, items: &[T]) -> Result<Vec<T>, NoMemory>
        ensures items { IfOk result (λ l. l.items ≡ items.now) }
        ensures cause { HasCause self.old self.new result }
    {
        let made = Vec::from_slice(self.alloc, items);
        self.of(made)
    }

    /// An item is put behind the others of a list. After an error the list is unchanged, and the
    /// item is gone. A list with room takes no memory.
    pub fn push<T: Drop>(&mut self, list: &mut Vec<T>, item: T) -> Result<(), NoMemory>
        ensures pushed { OnOk result (list.new.items ≡ list.old.items ++ item ∷ []) }
        ensures unchanged { OnErr result (list.new.items ≡ list.old.items) }
        ensures succeeds { vec_len list.old < vec_capacity list.old → IsOk result }
        ensures cause { HasCause self.old self.new result }
    {
        let pushed = list.push(item).map_err(AllocError::from);
        self.of(pushed)
    }

    /// A value in a block of its own. After an error the value is gone.
    pub fn boxed<T: Drop>(&mut self, value: T) -> Result<Box<T>, NoMemory>
        ensures value { IfOk result (λ b. b.value ≡ value) }
        ensures cause { HasCause self.old self.new result }
    {
        let made = Box::new(self.alloc, value).map_err(AllocError::from);
        self.of(made)
    }

    /// An empty queue with room for so many items.
    pub fn queue<T>(&mut self, capacity: usize) -> Result<VecDeque<T>, NoMemory>
        ensures empty { IfOk result (λ q. q.items ≡ []) }
        ensures capacity { IfOk result (λ q. deque_capacity q ≡ capacity) }
        ensures succeeds { capacity ≡ 0 → IsOk result }
        ensures cause { HasCause self.old self.new result }
    {
        let made = VecDeque::with_capacity(self.alloc, capacity);
        self.of(made)
    }

    /// An item is put behind the others of a queue. After an error the queue is unchanged, and the
    /// item comes back.
    pub fn push_back<T>(&mut self, queue: &mut VecDeque<T>, item: T) -> Result<(), T>
        ensures pushed { OnOk result (queue.new.items ≡ queue.old.items ++ item ∷ []) }
        ensures unchanged { OnErr result (queue.new.items ≡ queue.old.items) }
        ensures back { IfErr result (λ x. x ≡ item) }
        ensures cause { HasCause self.old self.new result }
    {
        let pushed = queue.push_back(item);
        self.kept(pushed)
    }
}
