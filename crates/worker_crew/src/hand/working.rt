//! What a hand does.
ghost use Rattle.std.specs.Prelude.{◌≡◌, true, false};
ghost use Rattle.std.specs.Arc.{arc_value};
ghost use Rattle.place_queue.specs.Ends.{queue_of, take_end, taken_by};
ghost use Rattle.worker_board.specs.Seats.{IsHandOf, hand_view, HoldsNone, number_at, hand_board};
ghost use Rattle.worker_crew.specs.Hands.{name_of, knows, took, WorkedOne, WorkedNone};

use super::Hand;
use crate::local::answer_job;
use place_queue::{PlaceQueue, Sleeper, Taker};
use rpc_outside::Duty;
use std::alloc::Global;
use std::sync::{Arc, Wait};
use worker_board::{Board, HandSeat, Ticket};

impl<D: Duty> Hand<D> {
    /// A hand that sits at this seat of the board and takes its tickets by this end of the queue.
    pub(crate) fn new(
        board: Arc<Board<D>, Global>,
        duty: Arc<D, Global>,
        queue: Arc<PlaceQueue, Global>,
        seat: HandSeat,
        taker: Taker,
        sleeper: Sleeper,
    ) -> Hand<D>
        requires board { IsHandOf (arc_value board) seat }
        requires free { HoldsNone (hand_view seat) }
        requires queue { take_end taker ≡ queue_of (arc_value queue) }
        ensures name { name_of result ≡ record {
          board = record { board = hand_board seat; queue = take_end taker };
          number = number_at seat;
        } }
        ensures view { knows result ≡ hand_view seat }
    {
        Hand {
            board,
            duty,
            queue,
            seat,
            taker,
            sleeper,
        }
    }

    /// Works one ticket. False comes exactly where no ticket waits or its claim is lost. It doesn't
    /// wait for a ticket to come, but it may for another's step in the queue.
    pub fn step<R: Wait>(&mut self, rt: &R) -> bool
        ensures name { name_of self.new ≡ name_of self.old }
        ensures worked { result ≡ true → WorkedOne (knows self.old) (knows self.new) }
        ensures none { result ≡ false → WorkedNone (knows self.old) (knows self.new) }
    {
        let Some(taken) = self.queue.take(rt, &mut self.taker) else {
            return false;
        };
        self.answer(taken.ticket)
    }

    /// Works tickets until the crew's hands are called back, and sleeps while there is none.
    pub fn work<R: Wait>(&mut self, rt: &R)
        ensures name { name_of self.new ≡ name_of self.old }
    {
        for _ in rt.forever() {
            let Some(taken) = self.queue.next(rt, &mut self.taker, &self.sleeper) else {
                return;
            };
            self.answer(taken.ticket);
        }
    }

    // Claims the job of a ticket, works it and finishes it; false where the claim is lost.
    fn answer(&mut self, ticket: Ticket) -> bool
        ensures name { name_of self.new ≡ name_of self.old }
        ensures worked { result ≡ true → WorkedOne (knows self.old) (knows self.new) }
        ensures none { result ≡ false → WorkedNone (knows self.old) (knows self.new) }
    {
        // The queue's rule can't name how many places this board has.
        if ticket.place() >= self.board.places() {
            return false;
        }
        let Some(job) = self.board.claim(&mut self.seat, ticket) else {
            return false;
        };
        let worked = answer_job(&*self.duty, job);
        self.board.finish(&mut self.seat, ticket, worked);
        true
    }

    /// Gives up the hand's seat, and its end of the queue.
    pub(crate) fn into_seat(self) -> (HandSeat, Taker)
    where
        D: Drop,
        ensures board { hand_board result.0 ≡ (name_of self).board.board }
        ensures queue { take_end result.1 ≡ (name_of self).board.queue }
        ensures number { number_at result.0 ≡ (name_of self).number }
        ensures free { HoldsNone (hand_view result.0) }
        ensures view { hand_view result.0 ≡ knows self }
        ensures took { taken_by result.1 ≡ took self }
    {
        let Hand {
            board: _,
            duty: _,
            queue: _,
            seat,
            taker,
            sleeper: _,
        } = self;
        (seat, taker)
    }
}
