//! The kinds of step, by what each tells of the seat that takes it.
use crate::view::View;
use atomic_table::{Join, Play, Split};
use message_buffer::MsgBuf;

/// The load of a try: it notes the word.
pub struct Looks;

impl Play<Option<MsgBuf>, View> for Looks {
    ghost use Rattle.shared_pool.specs.Moves.{Looked};

    ghost then = { Looked };
}

/// The exchange of a try: it gets the loan and takes the slot, or notes another word.
pub struct Tries;

impl Play<Option<MsgBuf>, View> for Tries {
    ghost use Rattle.shared_pool.specs.Moves.{Tried};

    ghost then = { Tried };
}

/// A load that gives the emptied slot back.
pub struct Releases;

impl Play<Option<MsgBuf>, View> for Releases {
    ghost use Rattle.shared_pool.specs.Moves.{Released};

    ghost then = { Released };
}

/// A load that takes the empty slot of a place whose buffer is out with the seat.
pub struct Reopens;

impl Play<Option<MsgBuf>, View> for Reopens {
    ghost use Rattle.shared_pool.specs.Moves.{Reopened};

    ghost then = { Reopened };
}

/// The store of a return: it gives the slot back, with the buffer in it.
pub struct Returns;

impl Play<Option<MsgBuf>, View> for Returns {
    ghost use Rattle.shared_pool.specs.Moves.{Returned};

    ghost then = { Returned };
}

/// The split by which a seat is made.
pub struct Splits;

impl Split<View> for Splits {
    ghost use Rattle.shared_pool.specs.Moves.{split_off};

    ghost left = { λ v. v };

    ghost right = { split_off };
}

/// The join by which a seat ends.
pub struct Joins;

impl Join<View> for Joins {
    ghost use Rattle.shared_pool.specs.Rule.{fresh};
    ghost use Rattle.shared_pool.specs.Moves.{taken_in};

    ghost both = { taken_in };

    ghost spent = { fresh 0 };
}
