//! A shared pool.
ghost use Rattle.std.specs.Prelude.{◌≡◌, ◌<◌};
ghost use Rattle.shared_pool.specs.Seats.{places_of};
ghost use Rattle.pool_speed.specs.Seats.{IsFreeSeat};

use crate::{CAPACITY, Crowd, PLACES};
use memory_count::{Memory, NoMemory};
use shared_pool::{PoolSeat, SharedPool};
use std::thread;
use std::thread::Threads;

/// Borrows a buffer of any place and gives it back; false where no try gave one.
fn borrow_once(pool: &SharedPool, seat: &mut PoolSeat, start: u32) -> bool
    requires seat { IsFreeSeat pool.now seat.old }
    requires start { start < places_of pool.now }
    ensures seat { IsFreeSeat pool.now seat.new }
{
    let Some((loan, buffer)) = pool.borrow_any(seat, start) else {
        return false;
    };
    pool.give_back(seat, loan, buffer);
    true
}

/// The same so many times. Tells how often a try gave a buffer.
fn borrow_often(pool: &SharedPool, seat: PoolSeat, start: u32, times: u32) -> (u64, PoolSeat)
    requires seat { IsFreeSeat pool.now seat }
    requires start { start < places_of pool.now }
    ensures seat { IsFreeSeat pool.now result.1 }
{
    let mut seat = seat;
    let mut lent: u64 = 0;
    for _time in 0..times {
        if borrow_once(pool, &mut seat, start) {
            lent = lent.wrapping_add(1);
        }
    }
    (lent, seat)
}

/// Two seats on threads of their own, the second of which ends.
fn borrow_by_two<R: Threads + Sync>(
    rt: &R,
    pool: &SharedPool,
    seat: PoolSeat,
    start: u32,
    times: u32,
) -> (u64, PoolSeat)
    requires places { places_of pool.now ≡ PLACES }
    requires start { start < 3 }
    requires seat { IsFreeSeat pool.now seat }
    ensures seat { IsFreeSeat pool.now result.1 }
{
    let mut one = seat;
    let two = pool.seat(&mut one);
    let next = start + 1;
    let ((first, mut one), (second, two)) = thread::join(
        rt,
        ||
            requires one { IsFreeSeat pool.now one }
            requires start { start < places_of pool.now }
        { borrow_often(pool, one, start, times) },
        ||
            requires two { IsFreeSeat pool.now two }
            requires next { next < places_of pool.now }
        { borrow_often(pool, two, next, times) },
    );
    pool.join(&mut one, two);
    (first.wrapping_add(second), one)
}

fn borrow_by_four<R: Threads + Sync>(rt: &R, pool: &SharedPool, seat: PoolSeat, times: u32) -> u64
    requires places { places_of pool.now ≡ PLACES }
    requires seat { IsFreeSeat pool.now seat }
{
    let mut one = seat;
    let two = pool.seat(&mut one);
    let ((first, _one), (second, _two)) = thread::join(
        rt,
        ||
            requires one { IsFreeSeat pool.now one }
            requires places { places_of pool.now ≡ PLACES }
        { borrow_by_two(rt, pool, one, 0, times) },
        ||
            requires two { IsFreeSeat pool.now two }
            requires places { places_of pool.now ≡ PLACES }
        { borrow_by_two(rt, pool, two, 2, times) },
    );
    first.wrapping_add(second)
}

/// Each of so many threads borrows and gives back so many times, looking at a place of its own
/// first. Tells how often there was a buffer.
pub fn borrow<R: Threads + Sync>(
    memory: &mut Memory,
    rt: &R,
    crowd: Crowd,
    times: u32,
) -> Result<u64, NoMemory> {
    let (pool, seat) = SharedPool::new(memory, PLACES, CAPACITY)?;
    Ok(match crowd {
        Crowd::One => borrow_often(&pool, seat, 0, times).0,
        Crowd::Two => borrow_by_two(rt, &pool, seat, 0, times).0,
        Crowd::Four => borrow_by_four(rt, &pool, seat, times),
    })
}
