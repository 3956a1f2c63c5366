//! An endpoint over a desk still stands for its facts.
ghost use Rattle.desk_laws.specs.Staying.{StandsOn};

use rpc_outside::{Duty, Service};

/// An endpoint over a desk stands for the same facts after its application took handles of the desk
/// and answered jobs by them, in any order and number, as before: a handle that is made leaves the
/// jobs that are out as they are, and an answer leaves them in another order.
pub fn desk_stands<V: Service, D: Duty>()
    ensures { StandsOn V.Service D.answer }
{}
