//! A board, and its two kinds of seat.
ghost use Rattle.std.specs.Prelude.{◌≡◌, ◌<◌, []};
ghost use Rattle.worker_board.specs.declared.view.Role.TheVariants.{Dispatcher, Hand};

mod dispatcher;
mod hand;
mod seats;

use crate::steps::{BoardSeat, Steps};
use rpc_outside::Duty;

/// A board for the jobs of a duty: a word and a slot for each place.
#[derive(Drop)]
pub struct Board<D: Duty> {
    steps: Steps<D>,
    places: u32,
    ghost words: { steps.table.shared.table_id.words ≡ places },
    ghost slots: { steps.table.shared.table_id.slots ≡ places },
    ghost some: { 0 < places },
}

/// The seat of a board's one dispatcher.
#[derive(Drop)]
pub struct DispatchSeat {
    seat: BoardSeat,
    ghost empty: { seat.me.1 ≡ [] },
    ghost idle: { seat.me.0.turn ≡ 0 },
    ghost dispatches: { seat.me.0.role ≡ Dispatcher },
}

/// The seat of a hand, which has a number of its own.
#[derive(Drop)]
pub struct HandSeat {
    seat: BoardSeat,
    number: u8,
    ghost empty: { seat.me.1 ≡ [] },
    ghost idle: { seat.me.0.turn ≡ 0 },
    ghost works: { seat.me.0.role ≡ Hand number },
}
