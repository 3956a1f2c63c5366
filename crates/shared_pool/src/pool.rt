//! A pool, and its seats.
ghost use Rattle.std.specs.Prelude.{◌≡◌, ◌<◌, ◌≤◌, []};
ghost use Rattle.shared_pool.specs.Loans.{AllInside};
ghost use Rattle.shared_pool.specs.declared.word.TheConstants.{MOST_PLACES};

mod loans;
mod seats;

use crate::rule::Law;
use crate::view::View;
use atomic_table::{Seat, Table};
use message_buffer::MsgBuf;
use std::alloc::Global;

/// A pool of message buffers: a word and a slot for each place.
#[derive(Drop)]
pub struct SharedPool {
    table: Table<Option<MsgBuf>, View, u32, Law, Global>,
    places: u32,
    capacity: u32,
    ghost words: { table.shared.table_id.words ≡ places },
    ghost slots: { table.shared.table_id.slots ≡ places },
    ghost some: { 0 < places },
    ghost few: { places ≤ MOST_PLACES },
    ghost sized: { table.shared.key ≡ capacity },
}

/// A seat of a pool. One thread steps with it at a time.
#[derive(Drop)]
pub struct PoolSeat {
    seat: Seat<Option<MsgBuf>, View>,
    ghost empty: { seat.me.1 ≡ [] },
    ghost idle: { seat.me.0.turn ≡ 0 },
    ghost inside: { AllInside seat.table_id.words seat.me.0.held },
}
