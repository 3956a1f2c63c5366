//! A crew's side of its board.

mod looking;
mod making;
mod moving;

use place_queue::{PlaceQueue, Putter};
use rpc_outside::Duty;
use std::alloc::Global;
use std::marker::Model;
use std::sync::Arc;
use worker_board::{Board, DispatchSeat};

/// The dispatcher of a board and of the queue of its tickets, and which places have a job: those
/// that are busy, in the order of giving, and those that are free.
pub struct Dispatcher<D: Duty> {
    board: Arc<Board<D>, Global>,
    queue: Arc<PlaceQueue, Global>,
    seat: DispatchSeat,
    putter: Putter,
    free: Vec<u32>,
    busy: Vec<u32>,
    given: u64,
}

// Written by hand, so that whoever lets one go makes a call, and proves nothing of its parts.
impl<D: Duty + Drop> Drop for Dispatcher<D> {
    fn drop(self) {
        let Dispatcher {
            board: _board,
            queue: _queue,
            seat: _seat,
            putter: _putter,
            free: _free,
            busy: _busy,
            given: _,
        } = self;
    }
}

impl<D: Duty> Model for Dispatcher<D> {
    ghost use Rattle.std.specs.Prelude.{vec_capacity};
    ghost use Rattle.std.specs.Arc.{arc_value};
    ghost use Rattle.worker_board.specs.Seats.{IsSeatOf, places_of, seat_board, view_of};
    ghost use Rattle.place_queue.specs.Ends.{put_end, put_by, told_to};
    ghost use Rattle.worker_crew.specs.Dispatching.{Dispatching, HoldsEnd, IsSound};

    ghost Value = { Dispatching };

    ghost view = { λ d. record {
      board = record { board = seat_board d.seat; queue = put_end d.putter };
      places = places_of (arc_value d.board);
      given = d.given;
      busy = d.busy.items;
      view = view_of d.seat;
      put = put_by d.putter;
      told = told_to d.putter;
    } };

    ghost invariant = { λ d. (IsSeatOf (arc_value d.board) d.seat
        × HoldsEnd (arc_value d.queue) d.putter (places_of (arc_value d.board))
        (view_of d.seat).out)
        × IsSound D.answer (record {
          board = record { board = seat_board d.seat; queue = put_end d.putter };
          places = places_of (arc_value d.board);
          given = d.given;
          busy = d.busy.items;
          view = view_of d.seat;
          put = put_by d.putter;
          told = told_to d.putter;
        }) d.free.items (vec_capacity d.free) (vec_capacity d.busy) };
}
