//! The life of an endpoint.
ghost use Rattle.std.specs.Prelude.{ℕ, ◌<◌, ◌^◌};

use std::marker::Model;

/// A life of an endpoint, from its making to its end: from 1 to 4,294,967,295. Number 0 is
/// nobody's.
#[derive(Clone, Copy, Debug, PartialEq, Eq)]
pub struct Life(pub u32);

/// The life that an endpoint has where nothing else is said, and each node of a script at first.
pub const FIRST_LIFE: u32 = 1;

impl Model for Life {
    ghost Value = { ℕ };

    ghost view = { λ n. n.0 };

    ghost invariant = { λ n. n.0 < 2 ^ 32 };

    ghost inverse = { λ n. record { 0 = n } };
}
