//! Boards and seats are made, and hands come back.
ghost use Rattle.std.specs.Prelude.{◌≡◌, ◌<◌, ◌≤◌, ◌++◌, IfOk, replicate};
ghost use Rattle.memory_count.specs.Faults.{HasCause};
ghost use Rattle.worker_board.specs.declared.view.Role.TheVariants.{Hand};
ghost use Rattle.worker_board.specs.Rule.{first_view, fresh};
ghost use Rattle.worker_board.specs.Moves.{taken_in, RanOnce};
ghost use Rattle.worker_board.specs.Seats.{IsSeatOf, IsHandOf, places_of, view_of, hand_view};
ghost use Rattle.worker_board.specs.Seats.{notes_of, hand_notes, Grows, number_at, IsUnused};
ghost use Rattle.worker_board.specs.Seats.{HoldsNone, with_hand};

use super::{Board, DispatchSeat, HandSeat};
use crate::steps::Steps;
use crate::word::MOST_PLACES;
use memory_count::{Memory, NoMemory};
use rpc_outside::Duty;

// A word for each place, none of which was ever offered.
fn first_words(memory: &mut Memory, places: usize) -> Result<Vec<u64>, NoMemory>
    ensures words { IfOk result (λ v. v.items ≡ replicate places 0) }
    ensures cause { HasCause memory.old memory.new result }
{
    let made = Vec::from_elem(memory.alloc(), 0u64, places);
    memory.of(made)
}

impl<D: Duty> Board<D> {
    /// A board with `places` places, none of which was ever offered, and the seat of its
    /// dispatcher.
    pub fn new(memory: &mut Memory, places: u32) -> Result<(Board<D>, DispatchSeat), NoMemory>
        requires places { (0 < places) × (places ≤ MOST_PLACES) }
        ensures places { IfOk result (λ made. places_of made.0 ≡ places) }
        ensures board { IfOk result (λ made. IsSeatOf made.0 made.1) }
        ensures view { IfOk result (λ made. view_of made.1 ≡ first_view places) }
        ensures cause { HasCause memory.old memory.new result }
    {
        let count = places as usize;
        let words = first_words(memory, count)?;
        let (steps, seat) = Steps::vacant(memory, words.as_slice(), count)?;
        Ok((Board { steps, places }, DispatchSeat { seat }))
    }

    /// How many places the board has.
    pub fn places(&self) -> u32
        ensures { result ≡ places_of self.now }
    {
        self.places
    }

    /// Sends out a hand with a number that no hand had before.
    pub fn hand(&self, seat: &mut DispatchSeat, number: u8) -> HandSeat
        requires board { IsSeatOf self.now seat.old }
        requires unused { IsUnused number (view_of seat.old) }
        ensures board { IsSeatOf self.now seat.new × IsHandOf self.now result }
        ensures view { view_of seat.new ≡ with_hand number (view_of seat.old) }
        ensures hand { hand_view result ≡ fresh (Hand number) }
        ensures number { number_at result ≡ number }
        ensures notes { Grows (notes_of seat.old) (notes_of seat.new) }
    {
        self.steps.name(&mut seat.seat, number as u64);
        let seat = self.steps.send_out(&mut seat.seat);
        HandSeat { seat, number }
    }

    /// Takes in a hand that holds no claim, with the lists of what it ran and lost. No ticket
    /// stands twice in what the dispatcher's seat knows to be run.
    pub fn retire(&self, seat: &mut DispatchSeat, hand: HandSeat)
        requires board { IsSeatOf self.now seat.old × IsHandOf self.now hand }
        requires free { HoldsNone (hand_view hand) }
        ensures board { IsSeatOf self.now seat.new }
        ensures view { view_of seat.new ≡ taken_in (view_of seat.old) (hand_view hand) }
        ensures notes { Grows (hand_notes hand ++ notes_of seat.old) (notes_of seat.new) }
        ensures once { RanOnce (places_of self.now) (view_of seat.new) }
    {
        let HandSeat {
            seat: other,
            number: _,
        } = hand;
        self.steps.take_in(&mut seat.seat, other);
        self.steps.sum(&mut seat.seat, 0);
    }
}
