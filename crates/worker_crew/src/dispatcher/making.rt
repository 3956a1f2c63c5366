//! A dispatcher is made, and hands go out and come back.
ghost use Rattle.std.specs.Prelude.{◌≡◌, ◌<◌, ◌≤◌, [], ◌++◌, IfOk, OnErr};
ghost use Rattle.std.specs.Prelude.{vec_capacity};
ghost use Rattle.std.specs.Arc.{arc_value};
ghost use Rattle.memory_count.specs.Faults.{HasCause};
ghost use Rattle.place_queue.specs.Order.{AllTold};
ghost use Rattle.worker_board.specs.Counts.{removed, times};
ghost use Rattle.worker_board.specs.Moves.{RanOnce, taken_in};
ghost use Rattle.worker_board.specs.Rule.{first_view};
ghost use Rattle.worker_board.specs.Seats.{AllRetired, IsUnused, with_hand};
ghost use Rattle.worker_crew.specs.Hands.{name_of, knows, took};
ghost use Rattle.worker_crew.specs.Places.{AreFree};

use super::Dispatcher;
use crate::hand::Hand;
use memory_count::{Memory, NoMemory};
use place_queue::{PlaceQueue, Sleeper};
use rpc_outside::Duty;
use std::alloc::{AllocError, Global};
use std::sync::Arc;
use worker_board::{Board, MOST_PLACES};

// All places of a board that was never used.
fn all_places(memory: &mut Memory, places: u32) -> Result<Vec<u32>, NoMemory>
    ensures places { IfOk result (λ v. AreFree places v.items × (places ≤ vec_capacity v)) }
    ensures cause { HasCause memory.old memory.new result }
{
    let mut free = memory.list(places as usize)?;
    for place in 0..places {
        free.push_reserved(place);
    }
    Ok(free)
}

// A value that the crew and its hands own together.
fn shared<T: Drop>(memory: &mut Memory, value: T) -> Result<Arc<T, Global>, NoMemory>
    ensures value { IfOk result (λ a. arc_value a ≡ value) }
    ensures cause { HasCause memory.old memory.new result }
{
    let made = Arc::new(memory.alloc(), value).map_err(AllocError::from);
    memory.of(made)
}

impl<D: Duty> Dispatcher<D> {
    /// The dispatcher of a new board with `places` places, and of a new queue with as many. No job
    /// was given, and no ticket put.
    pub(crate) fn new(memory: &mut Memory, places: u32) -> Result<Dispatcher<D>, NoMemory>
    where
        D: Drop,
        requires places { (0 < places) × (places ≤ MOST_PLACES) }
        ensures places { IfOk result (λ d. d.places ≡ places) }
        ensures busy { IfOk result (λ d. d.busy ≡ []) }
        ensures given { IfOk result (λ d. d.given ≡ 0) }
        ensures view { IfOk result (λ d. d.view ≡ first_view places) }
        ensures put { IfOk result (λ d. d.put ≡ []) }
        ensures cause { HasCause memory.old memory.new result }
    {
        let free = all_places(memory, places)?;
        let busy = memory.list(places as usize)?;
        let (board, seat) = Board::new(memory, places)?;
        let board = shared(memory, board)?;
        let (queue, putter) = PlaceQueue::new(memory, places)?;
        let queue = shared(memory, queue)?;
        Ok(Dispatcher {
            board,
            queue,
            seat,
            putter,
            free,
            busy,
            given: 0,
        })
    }

    /// Makes a hand with a number that no hand had before. Where there is no memory for it nothing
    /// changes.
    pub(crate) fn hand(
        &mut self,
        memory: &mut Memory,
        duty: &Arc<D, Global>,
        sleeper: Sleeper,
        number: u8,
    ) -> Result<Hand<D>, NoMemory>
    where
        D: Drop,
        requires unused { IsUnused number self.old.view }
        ensures name { IfOk result (λ h. name_of h
            ≡ record { board = self.old.board; number = number }) }
        ensures out { IfOk result (λ _. self.new
            ≡ record self.old { view = with_hand number self.old.view }) }
        ensures wanting { OnErr result (self.new ≡ self.old) }
        ensures cause { HasCause memory.old memory.new result }
    {
        let board = memory.of(Arc::try_clone(&self.board))?;
        let duty = memory.of(Arc::try_clone(duty))?;
        let queue = memory.of(Arc::try_clone(&self.queue))?;
        let seat = self.board.hand(&mut self.seat, number);
        let taker = self.queue.taker(&mut self.putter);
        Ok(Hand::new(board, duty, queue, seat, taker, sleeper))
    }

    /// Takes in a hand of this crew that is out, with the lists of what it took, ran and lost.
    pub(crate) fn retire(&mut self, hand: Hand<D>)
    where
        D: Drop,
        requires crew { (name_of hand).board ≡ self.old.board }
        requires out { 0 < times (name_of hand).number self.old.view.out }
        ensures back { self.new ≡ record self.old {
          view = taken_in self.old.view (knows hand);
          told = self.old.told ++ took hand;
        } }
        ensures out { self.new.view.out ≡ removed (name_of hand).number self.old.view.out }
        ensures once { RanOnce self.new.places self.new.view }
    {
        let (seat, taker) = hand.into_seat();
        self.board.retire(&mut self.seat, seat);
        self.queue.take_in(&mut self.putter, taker);
    }

    /// What the queue's rule tells once all hands are back: they took the first of the tickets put,
    /// each once and under its number.
    pub(crate) fn settle(&mut self)
        requires { AllRetired self.old.view }
        ensures told { AllTold self.new.put self.new.told }
        ensures same { self.new ≡ self.old }
    {
        self.queue.settle(&mut self.putter);
    }
}
