//! A board of two places by hand.
ghost use Rattle.std.specs.Prelude.{◌≡◌, ◌<◌, [], replicate, IfOk, IfSome, IfNone};
ghost use Rattle.memory_count.specs.Faults.{HasCause};
ghost use Rattle.rpc_outside.specs.PlainAnswer.{background_answer};
ghost use Rattle.worker_board.specs.Rule.{HasRoom, IsAnswered};
ghost use Rattle.worker_board.specs.Word.{job_of};
ghost use Rattle.worker_board.specs.Seats.{IsSeatOf, IsHandOf, places_of, view_of, hand_view};
ghost use Rattle.worker_board.specs.Seats.{HoldsClaim, HoldsNone};
ghost use Rattle.worker_board.specs.Rows.{IsOnlyClaim, IsFreeHand};

use crate::jobs::no_memory;
use memory_count::{Memory, NoMemory};
use message_buffer::MsgBuf;
use rpc_base::{RequestNo, SessionNo};
use rpc_outside::{Duty, PlainDuty};
use std::io;
use worker_board::{Board, DispatchSeat, HandSeat, Parcel, Ticket};

const PLACES: u32 = 2;

/// The type by which a worker answers what was asked.
const ECHO: u8 = 129;

/// An echo of two bytes.
pub fn echo_of(memory: &mut Memory, bytes: &[u8; 2]) -> Result<Parcel, NoMemory>
    ensures room { IfOk result (HasRoom background_answer) }
    ensures cause { HasCause memory.old memory.new result }
{
    let mut ask = MsgBuf::new(memory, 2)?;
    ask.set_len(2);
    ask.write(0, bytes);
    let _asked = ask.bytes().len();
    let mut out = MsgBuf::new(memory, 2)?;
    out.set_len(2);
    Ok(Parcel {
        session: SessionNo(0),
        request: RequestNo::of(0, 0),
        req_type: ECHO,
        ask,
        out,
    })
}

// The job with its answer.
fn worked<D: Duty>(duty: &D, job: Parcel) -> Parcel
    requires room { HasRoom D.answer job }
    ensures job { job_of result ≡ job_of job }
    ensures answer { IsAnswered D.answer result }
{
    let mut job = job;
    duty.handle(job.req_type, job.ask.bytes(), job.out.whole_mut());
    job
}

/// Claims a ticket and works its job. None comes where the claim is lost.
pub fn claim<D: Duty>(
    board: &Board<D>,
    duty: &D,
    seat: &mut HandSeat,
    ticket: Ticket,
) -> Option<Parcel>
    requires hand { IsFreeHand board.now seat.old }
    requires place { ticket.place < places_of board.now }
    ensures board { IsHandOf board.now seat.new }
    ensures holds { IfSome result (HoldsClaim (hand_view seat.new) ticket) }
    ensures alone { IfSome result (IsOnlyClaim (hand_view seat.new) ticket) }
    ensures answered { IfSome result (IsAnswered D.answer) }
    ensures free { IfNone result (HoldsNone (hand_view seat.new)) }
{
    let Some(job) = board.claim(seat, ticket) else {
        return None;
    };
    Some(worked(duty, job))
}

/// Finishes the one job of a hand.
pub fn finish<D: Duty>(board: &Board<D>, seat: &mut HandSeat, ticket: Ticket, job: Parcel)
    requires board { IsHandOf board.now seat.old }
    requires place { ticket.place < places_of board.now }
    requires claim { HoldsClaim (hand_view seat.old) ticket job }
    requires alone { IsOnlyClaim (hand_view seat.old) ticket job }
    requires answer { IsAnswered D.answer job }
    ensures hand { IsFreeHand board.now seat.new }
{
    board.finish(seat, ticket, job);
}

// Of two hands that claim one ticket the first works it.
fn work_once(
    rt: &impl Print,
    board: &Board<PlainDuty>,
    seat: &mut DispatchSeat,
    job: Parcel,
    next: Parcel,
) -> io::Result<()>
    requires board { IsSeatOf board.now seat.old }
    requires places { places_of board.now ≡ 2 }
    requires new { (view_of seat.old).ledger ≡ replicate 2 [] }
    requires hands { (view_of seat.old).used ≡ [] }
    requires job { HasRoom background_answer job }
    requires next { HasRoom background_answer next }
{
    let ticket = board.offer(seat, 0, job);
    let mut one = board.hand(seat, 0);
    let mut two = board.hand(seat, 1);
    let Some(job) = claim(board, &PlainDuty, &mut one, ticket) else {
        return println!(rt; "  the first claim is lost");
    };
    let None = claim(board, &PlainDuty, &mut two, ticket) else {
        return println!(rt; "  the second claim is won");
    };
    let None = board.collect(seat, 0) else {
        return println!(rt; "  collected while it is worked");
    };
    let None = board.take_back(seat, 0) else {
        return println!(rt; "  taken back while it is worked");
    };
    finish(board, &mut one, ticket, job);
    board.retire(seat, one);
    board.retire(seat, two);
    let Some(finished) = board.collect(seat, 0) else {
        return println!(rt; "  not collected once it is finished");
    };
    let again = board.offer(seat, 0, next);
    let Some(unworked) = board.take_back(seat, 0) else {
        return println!(rt; "  not taken back while it is ready");
    };
    println!(rt;
        "  place {} generation {}: {:?}",
        ticket.place(),
        ticket.generation(),
        finished.out.bytes()
    )?;
    println!(rt;
        "  place {} generation {}: {:?}",
        again.place(),
        again.generation(),
        unworked.ask.bytes()
    )
}

/// Tells what becomes of two tickets of one place.
pub fn one_ticket(memory: &mut Memory, rt: &impl Print) -> io::Result<()> {
    let (Ok(job), Ok(next)) = (echo_of(memory, b"ab"), echo_of(memory, b"cd")) else {
        return Err(no_memory());
    };
    let Ok((board, mut seat)) = Board::<PlainDuty>::new(memory, PLACES) else {
        return Err(no_memory());
    };
    work_once(rt, &board, &mut seat, job, next)
}
