//! Pools and seats are made, and seats end.
ghost use Rattle.std.specs.Prelude.{◌≡◌, ◌<◌, ◌≤◌, IfOk, All, length, replicate};
ghost use Rattle.memory_count.specs.Faults.{HasCause};
ghost use Rattle.shared_pool.specs.Rule.{fresh, IsFilled};
ghost use Rattle.shared_pool.specs.Moves.{split_off, taken_in};
ghost use Rattle.shared_pool.specs.Seats.{IsSeatOf, places_of, size_of, view_of, HoldsNone};

use super::{PoolSeat, SharedPool};
use crate::moves::{Joins, Splits};
use crate::word::MOST_PLACES;
use atomic_table::Table;
use memory_count::{Memory, NoMemory};
use message_buffer::{MOST_CAPACITY, MsgBuf};

/// So many buffers of this capacity, each at home.
fn buffers(memory: &mut Memory, count: u32, capacity: u32) -> Result<Vec<Option<MsgBuf>>, NoMemory>
    requires { capacity ≤ MOST_CAPACITY }
    ensures count { IfOk result (λ slots. length slots.items ≡ count) }
    ensures filled { IfOk result (λ slots. All (IsFilled capacity) slots.items) }
    ensures cause { HasCause memory.old memory.new result }
{
    let mut slots = memory.list(count as usize)?;
    for _i in 0..count {
        let buffer = MsgBuf::new(memory, capacity)?;
        slots.push_reserved(Some(buffer));
    }
    Ok(slots)
}

// A word for each place, none of which was ever lent.
fn first_words(memory: &mut Memory, places: usize) -> Result<Vec<u64>, NoMemory>
    ensures words { IfOk result (λ v. v.items ≡ replicate places 0) }
    ensures cause { HasCause memory.old memory.new result }
{
    let made = Vec::from_elem(memory.alloc(), 0u64, places);
    memory.of(made)
}

impl SharedPool {
    /// A pool of `places` buffers of this capacity, all at home, and a seat that has made no step.
    pub fn new(
        memory: &mut Memory,
        places: u32,
        capacity: u32,
    ) -> Result<(SharedPool, PoolSeat), NoMemory>
        requires places { (0 < places) × (places ≤ MOST_PLACES) }
        requires capacity { capacity ≤ MOST_CAPACITY }
        ensures places { IfOk result (λ made. places_of made.0 ≡ places) }
        ensures capacity { IfOk result (λ made. size_of made.0 ≡ capacity) }
        ensures seat { IfOk result (λ made. IsSeatOf made.0 made.1) }
        ensures view { IfOk result (λ made. view_of made.1 ≡ fresh capacity) }
        ensures cause { HasCause memory.old memory.new result }
    {
        let words = first_words(memory, places as usize)?;
        let slots = buffers(memory, places, capacity)?;
        let made = Table::new(memory.alloc(), words.as_slice(), slots, &capacity);
        let Ok((table, seat)) = made else {
            return Err(memory.told());
        };
        let pool = SharedPool {
            table,
            places,
            capacity,
        };
        Ok((pool, PoolSeat { seat }))
    }

    /// How many places the pool has.
    pub fn places(&self) -> u32
        ensures { result ≡ places_of self.now }
    {
        self.places
    }

    /// Makes a seat that holds no loan, beside one that there is.
    pub fn seat(&self, from: &mut PoolSeat) -> PoolSeat
        requires seat { IsSeatOf self.now from.old }
        ensures seat { IsSeatOf self.now from.new × IsSeatOf self.now result }
        ensures same { view_of from.new ≡ view_of from.old }
        ensures new { view_of result ≡ fresh (size_of self.now) }
    {
        let seat = self.table.shared.split_seat::<Splits>(&mut from.seat);
        PoolSeat { seat }
    }

    /// Takes in a seat that holds no loan, with the lists of what it found, got and gave back.
    pub fn join(&self, into: &mut PoolSeat, seat: PoolSeat)
        requires seats { IsSeatOf self.now into.old × IsSeatOf self.now seat }
        requires free { HoldsNone (view_of seat) }
        ensures seat { IsSeatOf self.now into.new }
        ensures view { view_of into.new ≡ taken_in (view_of into.old) (view_of seat) }
    {
        let PoolSeat { seat: other } = seat;
        self.table.shared.join_seat::<Joins>(&mut into.seat, other);
    }
}
