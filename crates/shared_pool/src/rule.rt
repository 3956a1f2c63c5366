//! The pool law, as the rule of the table under the pool.
use crate::view::View;
use atomic_table::TableRule;
use message_buffer::MsgBuf;

/// The pool law of buffers of one capacity, which is the table's key.
pub struct Law;

impl TableRule<Option<MsgBuf>, View, u32> for Law {
    ghost use Rattle.shared_pool.specs.Rule.{PoolLaw, fresh};

    ghost holds = { λ capacity. PoolLaw capacity };

    ghost first = { λ capacity. fresh capacity };
}
