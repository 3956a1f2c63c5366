//! The rule of the queue, and its kinds of step, by what each tells.
use crate::knows::{Knows, Numbered};
use crossbeam_queue::protocol::{Join, Lesson, Outcome, Protocol, Split};

/// Each ticket put was taken, or is left, in the order of putting, once.
pub struct InOrder;

impl Protocol<Numbered, Knows> for InOrder {
    ghost use Rattle.place_queue.specs.Order.{Order, first_knows};

    ghost holds = { Order };

    ghost first = { first_knows };
}

/// The dispatcher puts a ticket.
pub struct Puts;

impl Outcome<Numbered, Knows> for Puts {
    ghost use Rattle.place_queue.specs.Order.{HasPut};

    ghost then = { HasPut };
}

impl Lesson<Numbered, Knows> for Puts {
    ghost use Rattle.place_queue.specs.Order.{Left};

    ghost fact = { Left };
}

/// A hand takes a ticket.
pub struct Takes;

impl Outcome<Numbered, Knows> for Takes {
    ghost use Rattle.place_queue.specs.Order.{HasTaken};

    ghost then = { HasTaken };
}

impl Lesson<Numbered, Knows> for Takes {
    ghost use Rattle.std.specs.Prelude.{⊤};

    ghost fact = { λ v items. ⊤ };
}

/// The dispatcher gives a pass to a hand.
pub struct SendsOut;

impl Split<Knows> for SendsOut {
    ghost use Rattle.place_queue.specs.Order.{one_more_out, new_hand};

    ghost left = { one_more_out };

    ghost right = { λ v. new_hand };
}

/// The dispatcher takes a hand's pass in.
pub struct TakesIn;

impl Join<Knows> for TakesIn {
    ghost use Rattle.place_queue.specs.Order.{taken_in, spent};

    ghost both = { taken_in };

    ghost spent = { spent };
}

/// What the dispatcher learns of the queue once all hands' passes are in.
pub struct Settles;

impl Lesson<Numbered, Knows> for Settles {
    ghost use Rattle.place_queue.specs.Order.{AllTold};

    ghost fact = { λ v items. AllTold v.put v.taken };
}
