//! A pool that four endpoints share, each on a thread of its own.
ghost use Rattle.std.specs.Prelude.{◌≡◌, ◌<◌, IfNone, IfSome};
ghost use Rattle.message_buffer.specs.Buffer.{capacity_of};
ghost use Rattle.shared_pool.specs.Seats.{HoldsLoan, IsSeatOf, places_of, size_of, view_of};
ghost use Rattle.share_rows.specs.Borrowing.{HoldsOnly, IsFreeSeat};

use crate::caller::{ASKED, Caller};
use crate::checks::{Checks, Differs};
use memory_count::Memory;
use message_buffer::MsgBuf;
use shared_pool::{Loan, PoolSeat, SharedPool};
use std::alloc::Global;
use std::thread;
use std::thread::Threads;

/// The places of the pool, and the capacity of its buffers, in bytes.
const PLACES: u32 = 3;

const CAPACITY: u32 = 64;

/// How often each thread borrows and gives back.
const TIMES: u16 = 1_000;

/// How often all four do.
const ALL_TIMES: u64 = 4_000;

/// So often a thread looks for a buffer at home.
const TRIES: u32 = 50_000_000;

/// Borrows a buffer of any place, once one is at home.
fn borrow_one(pool: &SharedPool, seat: &mut PoolSeat) -> Option<(Loan, MsgBuf)>
    requires places { places_of pool.now ≡ PLACES }
    requires seat { IsFreeSeat pool.now seat.old }
    ensures seat { IsSeatOf pool.now seat.new }
    ensures lent { IfSome result (λ got. HoldsOnly got.0 seat.new) }
    ensures capacity { IfSome result (λ got. capacity_of got.1 ≡ size_of pool.now) }
    ensures none { IfNone result (IsFreeSeat pool.now seat.new) }
{
    for _try in 0..TRIES {
        if let Some(got) = pool.borrow_any(seat, 0) {
            return Some(got);
        }
        thread::yield_now();
    }
    None
}

/// Borrows a buffer, asks a call with it, and gives back what the call's end handed back. The spare
/// buffer comes back; where the call didn't end well, that is given back instead.
fn use_once(
    pool: &SharedPool,
    seat: &mut PoolSeat,
    caller: &mut Caller,
    asked: &[u8; ASKED as usize],
    spare: MsgBuf,
) -> Option<MsgBuf>
    requires places { places_of pool.now ≡ PLACES }
    requires capacity { size_of pool.now ≡ CAPACITY }
    requires seat { IsFreeSeat pool.now seat.old }
    requires spare { capacity_of spare ≡ CAPACITY }
    ensures seat { IsFreeSeat pool.now seat.new }
    ensures spare { IfSome result (λ b. capacity_of b ≡ CAPACITY) }
{
    let (loan, req) = borrow_one(pool, seat)?;
    match caller.call(req, asked) {
        Some(back) if back.capacity() == CAPACITY => {
            pool.give_back(seat, loan, back);
            Some(spare)
        }
        _ => {
            pool.give_back(seat, loan, spare);
            None
        }
    }
}

/// What call `number` of a thread asks.
fn bytes_of_call(thread: u8, number: u16) -> [u8; ASKED as usize] {
    let [high, low] = number.to_be_bytes();
    [thread, high, low, low ^ thread, high ^ thread]
}

/// The same a thousand times. Tells how often the call ended well.
fn use_often(
    pool: &SharedPool,
    seat: &mut PoolSeat,
    caller: &mut Caller,
    thread: u8,
    spare: MsgBuf,
) -> u16
    requires places { places_of pool.now ≡ PLACES }
    requires capacity { size_of pool.now ≡ CAPACITY }
    requires seat { IsFreeSeat pool.now seat.old }
    requires spare { capacity_of spare ≡ CAPACITY }
    ensures seat { IsFreeSeat pool.now seat.new }
{
    let mut spare = spare;
    for number in 0..TIMES {
        let asked = bytes_of_call(thread, number);
        let Some(back) = use_once(pool, seat, caller, &asked, spare) else {
            return number;
        };
        spare = back;
    }
    TIMES
}

/// An endpoint of its own makes a thousand calls.
fn call_often(
    alloc: Global,
    pool: &SharedPool,
    seat: &mut PoolSeat,
    thread: u8,
    spare: MsgBuf,
    checks: &mut Checks,
)
    requires places { places_of pool.now ≡ PLACES }
    requires capacity { size_of pool.now ≡ CAPACITY }
    requires seat { IsFreeSeat pool.now seat.old }
    requires spare { capacity_of spare ≡ CAPACITY }
    ensures seat { IsFreeSeat pool.now seat.new }
{
    match Caller::new(alloc, TIMES) {
        Ok(mut caller) => {
            checks.expect(caller.pair(), Differs::Answer);
            let times = use_often(pool, seat, &mut caller, thread, spare);
            checks.expect(times == TIMES, Differs::Times);
            caller.close();
        }
        Err(_) => checks.miss(Differs::Memory),
    }
}

/// What a thread does.
fn work(alloc: Global, pool: &SharedPool, seat: PoolSeat, thread: u8) -> (Checks, PoolSeat)
    requires places { places_of pool.now ≡ PLACES }
    requires capacity { size_of pool.now ≡ CAPACITY }
    requires seat { IsFreeSeat pool.now seat }
    ensures seat { IsFreeSeat pool.now result.1 }
{
    let mut seat = seat;
    let mut checks = Checks::new();
    match MsgBuf::new(&mut Memory::new(alloc), CAPACITY) {
        Ok(spare) => call_often(alloc, pool, &mut seat, thread, spare, &mut checks),
        Err(_) => checks.miss(Differs::Memory),
    }
    (checks, seat)
}

/// Two seats on threads of their own, which come back.
fn two_work<R: Threads + Sync>(
    rt: &R,
    alloc: Global,
    pool: &SharedPool,
    one: PoolSeat,
    two: PoolSeat,
    thread: u8,
) -> (Checks, PoolSeat, PoolSeat)
    requires places { places_of pool.now ≡ PLACES }
    requires capacity { size_of pool.now ≡ CAPACITY }
    requires one { IsFreeSeat pool.now one }
    requires two { IsFreeSeat pool.now two }
    ensures one { IsFreeSeat pool.now result.1 }
    ensures two { IsFreeSeat pool.now result.2 }
{
    let ((first, one), (second, two)) = thread::join(
        rt,
        || work(alloc, pool, one, thread),
        || work(alloc, pool, two, thread ^ 1),
    );
    let mut checks = first;
    checks.take_in(second);
    (checks, one, two)
}

/// Four seats on threads of their own, joined again.
fn four_work<R: Threads + Sync>(
    rt: &R,
    alloc: Global,
    pool: &SharedPool,
    seat: PoolSeat,
) -> (Checks, PoolSeat)
    requires places { places_of pool.now ≡ PLACES }
    requires capacity { size_of pool.now ≡ CAPACITY }
    requires seat { IsFreeSeat pool.now seat }
    ensures seat { IsFreeSeat pool.now result.1 }
{
    let mut one = seat;
    let two = pool.seat(&mut one);
    let three = pool.seat(&mut one);
    let four = pool.seat(&mut one);
    let ((first, mut one, two), (second, three, four)) = thread::join(
        rt,
        ||
            requires places { places_of pool.now ≡ PLACES }
            requires capacity { size_of pool.now ≡ CAPACITY }
            requires one { IsFreeSeat pool.now one }
            requires two { IsFreeSeat pool.now two }
        { two_work(rt, alloc, pool, one, two, 0) },
        ||
            requires places { places_of pool.now ≡ PLACES }
            requires capacity { size_of pool.now ≡ CAPACITY }
            requires three { IsFreeSeat pool.now three }
            requires four { IsFreeSeat pool.now four }
        { two_work(rt, alloc, pool, three, four, 2) },
    );
    pool.join(&mut one, two);
    pool.join(&mut one, three);
    pool.join(&mut one, four);
    let mut checks = first;
    checks.take_in(second);
    (checks, one)
}

/// How often the buffer of a place was lent so far, if it is at home.
fn times_at(pool: &SharedPool, seat: &mut PoolSeat, place: u32) -> Option<u64>
    requires seat { IsSeatOf pool.now seat.old }
    requires place { place < places_of pool.now }
    ensures seat { IsSeatOf pool.now seat.new }
{
    let (loan, buffer) = pool.borrow(seat, place)?;
    let times = loan.generation();
    pool.give_back(seat, loan, buffer);
    Some(times)
}

/// How often the buffers of all places were lent so far; none where one isn't at home.
fn times_lent(pool: &SharedPool, seat: &mut PoolSeat) -> Option<u64>
    requires places { places_of pool.now ≡ PLACES }
    requires seat { IsSeatOf pool.now seat.old }
{
    let first = times_at(pool, seat, 0)?;
    let second = times_at(pool, seat, 1)?;
    let third = times_at(pool, seat, 2)?;
    Some(first.wrapping_add(second).wrapping_add(third))
}

/// Four threads share a pool of three places. At the end all three are at home.
pub fn row<R: Threads + Sync>(rt: &R, alloc: Global) -> Checks {
    match SharedPool::new(&mut Memory::new(alloc), PLACES, CAPACITY) {
        Ok((pool, seat)) => {
            let (mut checks, mut seat) = four_work(rt, alloc, &pool, seat);
            let lent = times_lent(&pool, &mut seat);
            checks.expect(lent == Some(ALL_TIMES), Differs::Times);
            checks
        }
        Err(_) => {
            let mut checks = Checks::new();
            checks.miss(Differs::Memory);
            checks
        }
    }
}
