//! A right to read a fan.
ghost use Rattle.std.specs.Prelude.{◌≡◌};

use crate::fan::Held;
use counted_slot::Claim;

/// A right to read a fan. It must be closed.
pub struct Reading<'a> {
    pub(crate) claim: Claim<'a, Option<Held>>,
    ghost reads: { claim.right ≡ 1 },
}
