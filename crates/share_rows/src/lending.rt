//! A pool by hand.
ghost use Rattle.std.specs.Prelude.{◌≡◌, ◌<◌};
ghost use Rattle.message_buffer.specs.Buffer.{capacity_of};
ghost use Rattle.shared_pool.specs.Seats.{HoldsLoan, IsSeatOf, places_of, size_of, view_of};

use crate::checks::{Checks, Differs};
use memory_count::Memory;
use message_buffer::MsgBuf;
use shared_pool::{Loan, PoolSeat, SharedPool};

/// The places of the pool, and the capacity of its buffers, in bytes.
const PLACES: u32 = 2;

const CAPACITY: u32 = 64;

/// Tries to borrow the buffer of a place, and gives it back at once. Tells the generation of the
/// loan.
fn try_at(pool: &SharedPool, seat: &mut PoolSeat, place: u32) -> Option<u64>
    requires seat { IsSeatOf pool.now seat.old }
    requires place { place < places_of pool.now }
    ensures seat { IsSeatOf pool.now seat.new }
    ensures held { (view_of seat.new).held ≡ (view_of seat.old).held }
{
    let Some((loan, buffer)) = pool.borrow(seat, place) else {
        return None;
    };
    let generation = loan.generation();
    pool.give_back(seat, loan, buffer);
    Some(generation)
}

/// The same of tries at each place, from `start` on and round. Tells the place.
fn try_any(pool: &SharedPool, seat: &mut PoolSeat, start: u32) -> Option<u32>
    requires seat { IsSeatOf pool.now seat.old }
    requires start { start < places_of pool.now }
    ensures seat { IsSeatOf pool.now seat.new }
    ensures held { (view_of seat.new).held ≡ (view_of seat.old).held }
{
    let Some((loan, buffer)) = pool.borrow_any(seat, start) else {
        return None;
    };
    let place = loan.place();
    pool.give_back(seat, loan, buffer);
    Some(place)
}

/// The first seat has the buffer of place 0, and the second one tries.
fn lend_beside(
    pool: &SharedPool,
    one: &mut PoolSeat,
    two: &mut PoolSeat,
    first: Loan,
    buffer: MsgBuf,
    checks: &mut Checks,
)
    requires places { places_of pool.now ≡ PLACES }
    requires one { IsSeatOf pool.now one.old }
    requires two { IsSeatOf pool.now two.old }
    requires first { HoldsLoan (view_of one.old) first }
    requires capacity { capacity_of buffer ≡ size_of pool.now }
{
    checks.expect(try_at(pool, two, 0).is_none(), Differs::Try);
    match pool.borrow_any(two, 0) {
        Some((second, other)) => {
            let number = (second.place(), second.generation());
            checks.expect(number == (1, 0), Differs::Loan);
            checks.expect(try_any(pool, one, 0).is_none(), Differs::Try);
            pool.give_back(one, first, buffer);
            pool.give_back(two, second, other);
        }
        None => {
            pool.give_back(one, first, buffer);
            checks.miss(Differs::Try);
        }
    }
    checks.expect(try_at(pool, two, 0) == Some(1), Differs::Loan);
}

fn lend(pool: &SharedPool, seat: PoolSeat, checks: &mut Checks)
    requires places { places_of pool.now ≡ PLACES }
    requires seat { IsSeatOf pool.now seat }
{
    let mut one = seat;
    let mut two = pool.seat(&mut one);
    match pool.borrow(&mut one, 0) {
        Some((first, buffer)) => {
            let number = (first.place(), first.generation());
            checks.expect(number == (0, 0), Differs::Loan);
            let size = (buffer.capacity(), buffer.len());
            checks.expect(size == (CAPACITY, 0), Differs::Buffer);
            lend_beside(pool, &mut one, &mut two, first, buffer, checks);
        }
        None => checks.miss(Differs::Try),
    }
}

/// Two seats of a pool of two places: a buffer is lent to one of them at a time.
pub fn row(memory: &mut Memory) -> Checks {
    let mut checks = Checks::new();
    match SharedPool::new(memory, PLACES, CAPACITY) {
        Ok((pool, seat)) => lend(&pool, seat, &mut checks),
        Err(_) => checks.miss(Differs::Memory),
    }
    checks
}
