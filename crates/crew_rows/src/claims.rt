//! A board whose tickets four threads claim.
ghost use Rattle.std.specs.Prelude.{◌≡◌, ◌<◌, [], replicate, OnOk};
ghost use Rattle.memory_count.specs.Faults.{HasCause};
ghost use Rattle.worker_board.specs.Seats.{IsSeatOf, places_of, view_of};
ghost use Rattle.worker_board.specs.Rows.{IsFreeHand, IsOfferedFrom};

use crate::boards::{claim, echo_of, finish};
use crate::jobs::no_memory;
use memory_count::{Memory, NoMemory};
use rpc_outside::PlainDuty;
use std::thread::Threads;
use std::{io, thread};
use worker_board::{Board, DispatchSeat, HandSeat, Ticket};

const TICKETS: u32 = 1_000;

// Offers an echo at each place of a board that was never used.
fn offer_all(
    memory: &mut Memory,
    board: &Board<PlainDuty>,
    seat: &mut DispatchSeat,
    tickets: u32,
) -> Result<(), NoMemory>
    requires board { IsSeatOf board.now seat.old }
    requires places { places_of board.now ≡ tickets }
    requires new { (view_of seat.old).ledger ≡ replicate tickets [] }
    ensures board { IsSeatOf board.now seat.new }
    ensures offered { OnOk result (IsOfferedFrom 0 tickets (view_of seat.new)) }
    ensures cause { HasCause memory.old memory.new result }
{
    for place in 0..tickets {
        let job = echo_of(memory, b"ab")?;
        board.offer(seat, place, job);
    }
    Ok(())
}

// Claims the ticket of a place, and works and finishes its job; false where the claim is lost.
fn work(board: &Board<PlainDuty>, seat: &mut HandSeat, place: u32) -> bool
    requires hand { IsFreeHand board.now seat.old }
    requires place { place < places_of board.now }
    ensures hand { IsFreeHand board.now seat.new }
{
    let ticket = Ticket::of(place, 0);
    let Some(job) = claim(board, &PlainDuty, seat, ticket) else {
        return false;
    };
    finish(board, seat, ticket, job);
    true
}

// Tries to work the ticket of each place, and counts those that were won.
fn claim_all(board: &Board<PlainDuty>, seat: HandSeat) -> (u32, HandSeat)
    requires hand { IsFreeHand board.now seat }
    ensures hand { IsFreeHand board.now result.1 }
{
    let mut seat = seat;
    let mut won: u32 = 0;
    for place in 0..board.places() {
        if work(board, &mut seat, place) {
            won = won.wrapping_add(1);
        }
    }
    (won, seat)
}

// Looks for the job of each place once.
fn collect_all(board: &Board<PlainDuty>, seat: DispatchSeat) -> DispatchSeat
    requires board { IsSeatOf board.now seat }
    requires offered { IsOfferedFrom 0 (places_of board.now) (view_of seat) }
    ensures board { IsSeatOf board.now result }
{
    let mut seat = seat;
    for place in 0..board.places() {
        let _finished = board.collect(&mut seat, place);
    }
    seat
}

// Two hands on threads of their own.
fn claim_by_two<R: Threads + Sync>(
    rt: &R,
    board: &Board<PlainDuty>,
    one: HandSeat,
    two: HandSeat,
) -> (u32, HandSeat, HandSeat)
    requires one { IsFreeHand board.now one }
    requires two { IsFreeHand board.now two }
    ensures one { IsFreeHand board.now result.1 }
    ensures two { IsFreeHand board.now result.2 }
{
    let ((a, one), (b, two)) = thread::join(rt, || claim_all(board, one), || claim_all(board, two));
    (a.wrapping_add(b), one, two)
}

// Four hands on threads of their own; tells how many tickets they won together.
fn claim_by_four<R: Threads + Sync>(
    rt: &R,
    board: &Board<PlainDuty>,
    one: HandSeat,
    two: HandSeat,
    three: HandSeat,
    four: HandSeat,
) -> u32
    requires one { IsFreeHand board.now one }
    requires two { IsFreeHand board.now two }
    requires three { IsFreeHand board.now three }
    requires four { IsFreeHand board.now four }
{
    let ((a, _, _), (b, _, _)) = thread::join(
        rt,
        ||
            requires one { IsFreeHand board.now one }
            requires two { IsFreeHand board.now two }
        { claim_by_two(rt, board, one, two) },
        ||
            requires three { IsFreeHand board.now three }
            requires four { IsFreeHand board.now four }
        { claim_by_two(rt, board, three, four) },
    );
    a.wrapping_add(b)
}

/// Tells how many tickets four threads claim together, while the dispatcher looks for their jobs.
pub fn four_threads<R: Print + Threads + Sync>(memory: &mut Memory, rt: &R) -> io::Result<()> {
    let Ok((board, mut seat)) = Board::<PlainDuty>::new(memory, TICKETS) else {
        return Err(no_memory());
    };
    let one = board.hand(&mut seat, 0);
    let two = board.hand(&mut seat, 1);
    let three = board.hand(&mut seat, 2);
    let four = board.hand(&mut seat, 3);
    let Ok(()) = offer_all(memory, &board, &mut seat, TICKETS) else {
        return Err(no_memory());
    };
    let shared = &board;
    let (_seat, won) = thread::join(
        rt,
        || collect_all(shared, seat),
        ||
            requires one { IsFreeHand shared.now one }
            requires two { IsFreeHand shared.now two }
            requires three { IsFreeHand shared.now three }
            requires four { IsFreeHand shared.now four }
        { claim_by_four(rt, shared, one, two, three, four) },
    );
    println!(rt; "  {won} claims of {TICKETS} tickets are won")
}
