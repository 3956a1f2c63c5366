//! What a hand does with a ticket: it claims the job, and finishes it.
ghost use Rattle.std.specs.Prelude.{◌≡◌, ◌<◌, IfSome, IfNone};
ghost use Rattle.worker_board.specs.Word.{job_of};
ghost use Rattle.worker_board.specs.Rule.{HasRoom, IsAnswered};
ghost use Rattle.worker_board.specs.Moves.{lost_at, won, worked};
ghost use Rattle.worker_board.specs.Seats.{IsHandOf, places_of, hand_view, hand_notes, LeftAt};
ghost use Rattle.worker_board.specs.Seats.{FoundOtherWord, number_at, HoldsClaim};

use super::{Board, HandSeat};
use crate::word::{CLAIMED, OVER, PHASES, READY};
use crate::{Parcel, Ticket};
use rpc_outside::Duty;

impl<D: Duty> Board<D> {
    /// Claims the job of a ticket, by one exchange from ready to claimed. `None` comes exactly
    /// where that found another word of the place: a later one, 0, or that of an earlier offer.
    /// Then the ticket is one more of the seat's lost list.
    pub fn claim(&self, seat: &mut HandSeat, ticket: Ticket) -> Option<Parcel>
        requires board { IsHandOf self.now seat.old }
        requires place { ticket.place < places_of self.now }
        ensures board { IsHandOf self.now seat.new }
        ensures number { number_at seat.new ≡ number_at seat.old }
        ensures won { IfSome result (λ x. hand_view seat.new
            ≡ won (hand_view seat.old) ticket.place ticket.generation (job_of x)) }
        ensures room { IfSome result (HasRoom D.answer) }
        ensures lost { IfNone result (hand_view seat.new
            ≡ lost_at (hand_view seat.old) ticket.place ticket.generation) }
        ensures left { IfSome result (λ _. LeftAt ticket.place ticket.generation CLAIMED
            (hand_notes seat.old) (hand_notes seat.new)) }
        ensures found { IfNone result (FoundOtherWord ticket.place ticket.generation
            (hand_notes seat.old) (hand_notes seat.new)) }
    {
        let index = ticket.place() as usize;
        let first = PHASES * ticket.generation();
        let (ready, claimed) = (first + READY, first + CLAIMED);
        let found = self.steps.claim(&mut seat.seat, index, ready, claimed);
        if found != ready {
            return None;
        }
        let parcel = self.steps.exchange(&mut seat.seat, index, None);
        self.steps.release(&mut seat.seat, index);
        parcel
    }

    /// Hands in the answer to a claim.
    pub fn finish(&self, seat: &mut HandSeat, ticket: Ticket, parcel: Parcel)
        requires board { IsHandOf self.now seat.old }
        requires place { ticket.place < places_of self.now }
        requires claim { HoldsClaim (hand_view seat.old) ticket parcel }
        requires answer { IsAnswered D.answer parcel }
        ensures board { IsHandOf self.now seat.new }
        ensures number { number_at seat.new ≡ number_at seat.old }
        ensures view { hand_view seat.new
            ≡ worked (hand_view seat.old) ticket.place ticket.generation }
        ensures left { LeftAt ticket.place ticket.generation OVER (hand_notes seat.old)
            (hand_notes seat.new) }
    {
        let index = ticket.place() as usize;
        self.steps.reopen(&mut seat.seat, index);
        let _empty = self.steps.exchange(&mut seat.seat, index, Some(parcel));
        let over = PHASES * ticket.generation() + OVER;
        self.steps.finish(&mut seat.seat, index, over);
    }
}
