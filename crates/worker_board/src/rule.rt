//! The board law, as the rule of the table under the board.
use crate::Parcel;
use crate::view::View;
use atomic_table::TableRule;
use rpc_outside::Duty;
use std::marker::PhantomData;

/// The board law of a duty, whose answers it names.
pub struct Law<D> {
    duty: PhantomData<D>,
}

impl<D: Duty> TableRule<Option<Parcel>, View, usize> for Law<D> {
    ghost use Rattle.worker_board.specs.Rule.{BoardLaw, first_view};

    ghost holds = { λ places. BoardLaw D.answer };

    ghost first = { λ places. first_view places };
}
