//! The facts that follow.
ghost use Rattle.std.specs.Prelude.{◌≡◌, ◌<◌, Some, length, slice_get};

use rpc_base::Fact;

/// The fact at a place.
pub fn fact_at(facts: &[Fact], place: usize) -> &Fact
    requires { place < length facts.now }
    ensures { slice_get facts.now place ≡ Some result.now }
{
    &facts[place]
}
