//! The first, and the least, of two that may be there.
ghost use Rattle.std.specs.Prelude.{◌≡◌};
ghost use Rattle.rpc_base.specs.Least.{smaller};
ghost use Rattle.rpc_base.proofs.LeastLemmas.{lesser};
ghost use Rattle.pacing_wheel.specs.Wheel.{earlier, is_first};

use crate::pacer::Paced;

/// Whether the first of two comes first: among equals it does.
pub fn is_first(first: &Option<Paced>, second: &Option<Paced>) -> bool
    ensures { result ≡ is_first first.now second.now }
{
    match (first, second) {
        (None, _) => false,
        (Some(_), None) => true,
        (Some(first), Some(second)) => first.due <= second.due,
    }
}

/// The one that is due first, among equals the first.
pub fn earlier(first: Option<Paced>, second: Option<Paced>) -> Option<Paced>
    ensures { result ≡ earlier first second }
{
    match (first, second) {
        (None, other) => other,
        (Some(first), None) => Some(first),
        (Some(first), Some(second)) => {
            if first.due <= second.due {
                Some(first)
            } else {
                Some(second)
            }
        }
    }
}

/// The lesser of two numbers.
pub fn lesser(first: Option<u16>, second: Option<u16>) -> Option<u16>
    ensures { result ≡ lesser first second }
{
    match (first, second) {
        (None, other) => other,
        (Some(first), None) => Some(first),
        (Some(first), Some(second)) => Some(first.min(second)),
    }
}

/// The smaller of a number and another that may be there.
pub fn smaller_of(number: u16, other: Option<u16>) -> u16
    ensures { result ≡ smaller number other }
{
    match other {
        Some(other) => number.min(other),
        None => number,
    }
}
