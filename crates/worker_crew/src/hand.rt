//! A hand: it works the jobs of a crew's board, one at a time.
ghost use Rattle.std.specs.Prelude.{◌≡◌};
ghost use Rattle.std.specs.Arc.{arc_value};
ghost use Rattle.place_queue.specs.Ends.{queue_of, take_end};
ghost use Rattle.worker_board.specs.Seats.{IsHandOf, hand_view, HoldsNone};

mod working;

use place_queue::{PlaceQueue, Sleeper, Taker};
use rpc_outside::Duty;
use std::alloc::Global;
use std::sync::Arc;
use worker_board::{Board, HandSeat};

/// A hand of a crew, between two jobs: it holds no claim.
#[derive(Drop)]
pub struct Hand<D: Duty> {
    board: Arc<Board<D>, Global>,
    duty: Arc<D, Global>,
    queue: Arc<PlaceQueue, Global>,
    seat: HandSeat,
    taker: Taker,
    sleeper: Sleeper,
    ghost ours: { IsHandOf (arc_value board) seat },
    ghost free: { HoldsNone (hand_view seat) },
    ghost takes: { take_end taker ≡ queue_of (arc_value queue) },
}
