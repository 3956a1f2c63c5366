//! The words and the slots of a board, and the one way to them: a function for each kind of step.
//! No other file of the crate can take a step, since the table and the kinds are private here.
ghost use Rattle.std.specs.Prelude.{◌≡◌, ◌∷◌, ◌<◌, [], length, replicate, None, IfOk};
ghost use Rattle.atomic_table.specs.Table.{Joins, Splits, opening, rest};
ghost use Rattle.memory_count.specs.Faults.{HasCause};
ghost use Rattle.worker_board.specs.declared.view.Role.TheVariants.{Spent};
ghost use Rattle.worker_board.specs.Moves.{Finished, Looked, Named, Numbered, Opened, Readied};
ghost use Rattle.worker_board.specs.Moves.{Released, Reopened, Summed, TookBack, Tried};
ghost use Rattle.worker_board.specs.Moves.{new_hand, sent_out, taken_in};
ghost use Rattle.worker_board.specs.Rule.{BoardLaw, Slot, first_view, fresh};

mod moves;

use crate::Parcel;
use crate::rule::Law;
use crate::view::View;
use atomic_table::{Seat, Table};
use memory_count::{Memory, NoMemory};
use moves::{
    Finishes, Looks, Names, Numbers, Opens, Readies, Releases, Reopens, SendsOut, Sums, TakesBack,
    TakesIn, Tries,
};
use rpc_outside::Duty;
use std::alloc::Global;

/// A seat at the words of a board.
pub type BoardSeat = Seat<Option<Parcel>, View>;

/// The words and the slots of a board.
#[derive(Drop)]
pub struct Steps<D: Duty> {
    table: Table<Option<Parcel>, View, usize, Law<D>, Global>,
}

impl<D: Duty> Steps<D> {
    ghost use Rattle.worker_board.specs.Stepping.{MayExchange, MayRead, MayWrite, Stepped};
    ghost use Rattle.worker_board.specs.Stepping.{words_id};

    /// As many empty slots as places, a word for each, and the seat of the dispatcher.
    pub fn vacant(
        memory: &mut Memory,
        words: &[u64],
        places: usize,
    ) -> Result<(Steps<D>, BoardSeat), NoMemory>
        requires { BoardLaw D.answer
            (opening words.now (replicate places None) (first_view places)) }
        ensures made { IfOk result (λ made. ((words_id made.0).words ≡ length words.now)
            × ((words_id made.0).slots ≡ places) × (made.1.table_id ≡ words_id made.0)
            × (made.1.id ≡ 0) × (made.1.me ≡ (first_view places, []))) }
        ensures cause { HasCause memory.old memory.new result }
    {
        let made = Table::vacant(memory.alloc(), words, places, &places);
        let (table, seat) = memory.of(made)?;
        Ok((Steps { table }, seat))
    }

    /// Reads and writes the slot that the seat took last. No word is read.
    pub fn exchange(
        &self,
        seat: &mut BoardSeat,
        place: usize,
        new: Option<Parcel>,
    ) -> Option<Parcel>
        requires { (seat.old.table_id ≡ words_id self.now)
            × ((old : Slot) × (seat.old.me.1 ≡ (place, old) ∷ rest seat.old.me.1)) }
        ensures { (seat.new.table_id ≡ seat.old.table_id) × (seat.new.id ≡ seat.old.id)
            × (seat.old.me.1 ≡ (place, result) ∷ rest seat.old.me.1)
            × (seat.new.me ≡ (seat.old.me.0, (place, new) ∷ rest seat.old.me.1)) }
    {
        self.table.shared.exchange(seat, place, new)
    }

    /// The load of an offer: it takes the empty slot of a free place.
    pub fn open(&self, seat: &mut BoardSeat, place: usize) -> u64
        requires { MayRead self.now D.answer seat.old place Opened }
        ensures { Stepped self.now Opened seat.old seat.new place 0 0 result }
    {
        self.table.shared.load::<Opens>(seat, place)
    }

    /// The store of an offer: it gives the slot back, with the parcel in it.
    pub fn ready(&self, seat: &mut BoardSeat, place: usize, word: u64)
        requires { MayWrite self.now D.answer seat.old place word Readied }
        ensures { Stepped self.now Readied seat.old seat.new place word 0 word }
    {
        self.table.shared.store::<Readies>(seat, place, word);
    }

    /// The load of a look: it takes the slot of a finished job.
    pub fn look(&self, seat: &mut BoardSeat, place: usize) -> u64
        requires { MayRead self.now D.answer seat.old place (Looked D.answer) }
        ensures { Stepped self.now (Looked D.answer) seat.old seat.new place 0 0 result }
    {
        self.table.shared.load::<Looks<D>>(seat, place)
    }

    /// The load of a take-back: it reads the generation.
    pub fn number(&self, seat: &mut BoardSeat, place: usize) -> u64
        requires { MayRead self.now D.answer seat.old place Numbered }
        ensures { Stepped self.now Numbered seat.old seat.new place 0 0 result }
    {
        self.table.shared.load::<Numbers>(seat, place)
    }

    /// The exchange of a take-back: it takes the slot of a ready job.
    pub fn take_back(&self, seat: &mut BoardSeat, place: usize, old: u64, new: u64) -> u64
        requires { MayExchange self.now D.answer seat.old place old new TookBack }
        ensures { Stepped self.now TookBack seat.old seat.new place old new result }
    {
        self.table
            .shared
            .compare_exchange::<TakesBack>(seat, place, old, new)
    }

    /// A load that gives the emptied slot back.
    pub fn release(&self, seat: &mut BoardSeat, place: usize) -> u64
        requires { MayRead self.now D.answer seat.old place Released }
        ensures { Stepped self.now Released seat.old seat.new place 0 0 result }
    {
        self.table.shared.load::<Releases>(seat, place)
    }

    /// The exchange of a claim: it takes the slot of a ready job.
    pub fn claim(&self, seat: &mut BoardSeat, place: usize, old: u64, new: u64) -> u64
        requires { MayExchange self.now D.answer seat.old place old new (Tried D.answer) }
        ensures { Stepped self.now (Tried D.answer) seat.old seat.new place old new result }
    {
        self.table
            .shared
            .compare_exchange::<Tries<D>>(seat, place, old, new)
    }

    /// The load of a finish: it takes the empty slot of a claimed job.
    pub fn reopen(&self, seat: &mut BoardSeat, place: usize) -> u64
        requires { MayRead self.now D.answer seat.old place Reopened }
        ensures { Stepped self.now Reopened seat.old seat.new place 0 0 result }
    {
        self.table.shared.load::<Reopens>(seat, place)
    }

    /// The store of a finish: it gives the slot back, with the parcel in it.
    pub fn finish(&self, seat: &mut BoardSeat, place: usize, word: u64)
        requires { MayWrite self.now D.answer seat.old place word Finished }
        ensures { Stepped self.now Finished seat.old seat.new place word 0 word }
    {
        self.table.shared.store::<Finishes>(seat, place, word);
    }

    /// Tells the number of the next hand: an exchange of word 0 that leaves it as it was.
    pub fn name(&self, seat: &mut BoardSeat, number: u64) -> u64
        requires { MayExchange self.now D.answer seat.old 0 number number Named }
        ensures { Stepped self.now Named seat.old seat.new 0 number number result }
    {
        self.table
            .shared
            .compare_exchange::<Names>(seat, 0, number, number)
    }

    /// The split by which a hand goes out.
    pub fn send_out(&self, seat: &mut BoardSeat) -> BoardSeat
        requires { (seat.old.table_id ≡ words_id self.now) × (0 < (words_id self.now).words)
            × Splits (BoardLaw D.answer) seat.old.id seat.old.me.0 (sent_out seat.old.me.0)
            (new_hand seat.old.me.0) }
        ensures { (seat.new.table_id ≡ seat.old.table_id) × (seat.new.id ≡ seat.old.id)
            × (seat.new.me ≡ (sent_out seat.old.me.0, seat.old.me.1))
            × (result.table_id ≡ seat.old.table_id)
            × (result.me ≡ (new_hand seat.old.me.0, [])) }
    {
        self.table.shared.split_seat::<SendsOut>(seat)
    }

    /// The join by which a hand comes back.
    pub fn take_in(&self, seat: &mut BoardSeat, other: BoardSeat)
        requires { (seat.old.table_id ≡ words_id self.now) × (other.table_id ≡ words_id self.now)
            × (other.me.1 ≡ []) × (0 < (words_id self.now).words)
            × Joins (BoardLaw D.answer) seat.old.id seat.old.me.0 other.id other.me.0
            (taken_in seat.old.me.0 other.me.0) (fresh Spent) }
        ensures { (seat.new.table_id ≡ seat.old.table_id) × (seat.new.id ≡ seat.old.id)
            × (seat.new.me ≡ (taken_in seat.old.me.0 other.me.0, seat.old.me.1)) }
    {
        self.table.shared.join_seat::<TakesIn>(seat, other);
    }

    /// A load of a word after a join: no ticket was run twice.
    pub fn sum(&self, seat: &mut BoardSeat, place: usize) -> u64
        requires { MayRead self.now D.answer seat.old place Summed }
        ensures { Stepped self.now Summed seat.old seat.new place 0 0 result }
    {
        self.table.shared.load::<Sums>(seat, place)
    }
}
