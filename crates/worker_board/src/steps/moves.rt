//! The kinds of step, by what each tells of the seat that takes it.
use crate::Parcel;
use crate::view::View;
use atomic_table::{Join, Play, Split};
use rpc_outside::Duty;
use std::marker::PhantomData;

/// The load of an offer: it takes the empty slot of a free place.
pub struct Opens;

impl Play<Option<Parcel>, View> for Opens {
    ghost use Rattle.worker_board.specs.Moves.{Opened};

    ghost then = { Opened };
}

/// The store of an offer: it gives the slot back, with the parcel in it.
pub struct Readies;

impl Play<Option<Parcel>, View> for Readies {
    ghost use Rattle.worker_board.specs.Moves.{Readied};

    ghost then = { Readied };
}

/// The load of a look: it takes the slot of a finished job.
pub struct Looks<D> {
    duty: PhantomData<D>,
}

impl<D: Duty> Play<Option<Parcel>, View> for Looks<D> {
    ghost use Rattle.worker_board.specs.Moves.{Looked};

    ghost then = { Looked D.answer };
}

/// The load of a take-back: it reads the generation.
pub struct Numbers;

impl Play<Option<Parcel>, View> for Numbers {
    ghost use Rattle.worker_board.specs.Moves.{Numbered};

    ghost then = { Numbered };
}

/// The exchange of a take-back: it takes the slot of a ready job.
pub struct TakesBack;

impl Play<Option<Parcel>, View> for TakesBack {
    ghost use Rattle.worker_board.specs.Moves.{TookBack};

    ghost then = { TookBack };
}

/// A load that gives the emptied slot back.
pub struct Releases;

impl Play<Option<Parcel>, View> for Releases {
    ghost use Rattle.worker_board.specs.Moves.{Released};

    ghost then = { Released };
}

/// The exchange of a claim: it takes the slot of a ready job.
pub struct Tries<D> {
    duty: PhantomData<D>,
}

impl<D: Duty> Play<Option<Parcel>, View> for Tries<D> {
    ghost use Rattle.worker_board.specs.Moves.{Tried};

    ghost then = { Tried D.answer };
}

/// The load of a finish: it takes the empty slot of a claimed job.
pub struct Reopens;

impl Play<Option<Parcel>, View> for Reopens {
    ghost use Rattle.worker_board.specs.Moves.{Reopened};

    ghost then = { Reopened };
}

/// The store of a finish: it gives the slot back, with the parcel in it.
pub struct Finishes;

impl Play<Option<Parcel>, View> for Finishes {
    ghost use Rattle.worker_board.specs.Moves.{Finished};

    ghost then = { Finished };
}

/// Tells the number of the next hand: an exchange of word 0 that leaves it as it was.
pub struct Names;

impl Play<Option<Parcel>, View> for Names {
    ghost use Rattle.worker_board.specs.Moves.{Named};

    ghost then = { Named };
}

/// The split by which a hand goes out.
pub struct SendsOut;

impl Split<View> for SendsOut {
    ghost use Rattle.worker_board.specs.Moves.{sent_out, new_hand};

    ghost left = { sent_out };

    ghost right = { new_hand };
}

/// The join by which a hand comes back.
pub struct TakesIn;

impl Join<View> for TakesIn {
    ghost use Rattle.worker_board.specs.Rule.{fresh};
    ghost use Rattle.worker_board.specs.Moves.{taken_in};
    ghost use Rattle.worker_board.specs.declared.view.Role.TheVariants.{Spent};

    ghost both = { taken_in };

    ghost spent = { fresh Spent };
}

/// A load of word 0 after a join: no ticket was run twice.
pub struct Sums;

impl Play<Option<Parcel>, View> for Sums {
    ghost use Rattle.worker_board.specs.Moves.{Summed};

    ghost then = { Summed };
}
