//! What the dispatcher does at a place: it offers a job, looks for its answer, or takes it back.
ghost use Rattle.std.specs.Prelude.{◌≡◌, ◌<◌, IfSome, IfNone, IsSome};
ghost use Rattle.worker_board.specs.declared.view.End.TheVariants.{Collected, TakenBack};
ghost use Rattle.worker_board.specs.Tickets.{offer_no};
ghost use Rattle.worker_board.specs.Rule.{HasRoom};
ghost use Rattle.worker_board.specs.Moves.{offered, ended_as, missed, lost_at, IsAnswerTo};
ghost use Rattle.worker_board.specs.Moves.{LostBefore};
ghost use Rattle.worker_board.specs.Seats.{IsSeatOf, places_of, view_of, notes_of, LeftAt};
ghost use Rattle.worker_board.specs.Seats.{FoundOther, FoundUnfinished, IsFree, IsOffered};
ghost use Rattle.worker_board.specs.Seats.{generation, next_generation, IsOfferOf, AllRetired};

use super::{Board, DispatchSeat};
use crate::word::{MOST_OFFERS, OVER, PHASES, READY};
use crate::{Parcel, Ticket};
use rpc_outside::Duty;

impl<D: Duty> Board<D> {
    /// Offers a job at a free place, and names the offer. The first of a place has generation 0.
    pub fn offer(&self, seat: &mut DispatchSeat, place: u32, parcel: Parcel) -> Ticket
        requires board { IsSeatOf self.now seat.old }
        requires place { place < places_of self.now }
        requires free { IsFree (view_of seat.old) place }
        requires count { next_generation (view_of seat.old) place < MOST_OFFERS }
        requires room { HasRoom D.answer parcel }
        ensures board { IsSeatOf self.now seat.new }
        ensures view { view_of seat.new ≡ offered (view_of seat.old) place parcel }
        ensures ticket { result ≡ offer_no place (next_generation (view_of seat.old) place) }
        ensures left { LeftAt place (next_generation (view_of seat.old) place) READY
            (notes_of seat.old) (notes_of seat.new) }
    {
        let index = place as usize;
        let found = self.steps.open(&mut seat.seat, index);
        let generation = if found == 0 { 0 } else { found / PHASES + 1 };
        let _empty = self.steps.exchange(&mut seat.seat, index, Some(parcel));
        self.steps
            .ready(&mut seat.seat, index, PHASES * generation + READY);
        Ticket::of(place, generation)
    }

    /// Takes a finished job out, with its answer. `None` comes exactly where the job was found
    /// ready or claimed, and then it is one more of the seat's misses. Once all hands are back no
    /// job is claimed, so `None` then comes for a ready job alone, and never for one whose
    /// take-back was lost.
    pub fn collect(&self, seat: &mut DispatchSeat, place: u32) -> Option<Parcel>
        requires board { IsSeatOf self.now seat.old }
        requires place { place < places_of self.now }
        requires offered { IsOffered (view_of seat.old) place }
        ensures board { IsSeatOf self.now seat.new }
        ensures answered { IfSome result (IsAnswerTo D.answer (view_of seat.old) place) }
        ensures collected { IfSome result (λ _. view_of seat.new
            ≡ ended_as Collected (view_of seat.old) place) }
        ensures missed { IfNone result (view_of seat.new ≡ missed (view_of seat.old) place) }
        ensures left { IfSome result (λ _. LeftAt place (generation (view_of seat.old) place) OVER
            (notes_of seat.old) (notes_of seat.new)) }
        ensures found { IfNone result (FoundUnfinished place (generation (view_of seat.old) place)
            (notes_of seat.old) (notes_of seat.new)) }
        ensures unclaimed { IfNone result (AllRetired (view_of seat.old)
            → LeftAt place (generation (view_of seat.old) place) READY
            (notes_of seat.old) (notes_of seat.new)) }
        ensures sure { LostBefore (view_of seat.old) place → AllRetired (view_of seat.old)
            → IsSome result }
    {
        let index = place as usize;
        let found = self.steps.look(&mut seat.seat, index);
        if found % PHASES != OVER {
            return None;
        }
        let parcel = self.steps.exchange(&mut seat.seat, index, None);
        self.steps.release(&mut seat.seat, index);
        parcel
    }

    /// Takes a job back as it was offered, with all its bytes. `None` comes exactly where a hand
    /// has claimed it, and then it is one more of the seat's lost list.
    pub fn take_back(&self, seat: &mut DispatchSeat, place: u32) -> Option<Parcel>
        requires board { IsSeatOf self.now seat.old }
        requires place { place < places_of self.now }
        requires offered { IsOffered (view_of seat.old) place }
        ensures board { IsSeatOf self.now seat.new }
        ensures unworked { IfSome result (IsOfferOf (view_of seat.old) place) }
        ensures taken_back { IfSome result (λ _. view_of seat.new
            ≡ ended_as TakenBack (view_of seat.old) place) }
        ensures lost { IfNone result (view_of seat.new
            ≡ lost_at (view_of seat.old) place (generation (view_of seat.old) place)) }
        ensures left { IfSome result (λ _. LeftAt place (generation (view_of seat.old) place) OVER
            (notes_of seat.old) (notes_of seat.new)) }
        ensures found { IfNone result (FoundOther place (generation (view_of seat.old) place)
            (notes_of seat.old) (notes_of seat.new)) }
    {
        let index = place as usize;
        let first = PHASES * (self.steps.number(&mut seat.seat, index) / PHASES);
        let (ready, over) = (first + READY, first + OVER);
        let found = self.steps.take_back(&mut seat.seat, index, ready, over);
        if found != ready {
            return None;
        }
        let job = self.steps.exchange(&mut seat.seat, index, None);
        self.steps.release(&mut seat.seat, index);
        job
    }
}
