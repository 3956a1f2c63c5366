//! The number of a request: a slot and its turn in one.
ghost use Rattle.std.specs.Prelude.{◌≡◌, ℕ, ◌+◌, ◌*◌, ◌/◌, ◌%◌, ◌<◌, ◌^◌};

use std::marker::Model;

/// The number of a request, below 2^48. The t-th request (from 0) that begins in slot i of a
/// session has the number `i + 8 * t`.
#[derive(Clone, Copy, Debug, PartialEq, Eq)]
pub struct RequestNo(u64);

impl Model for RequestNo {
    ghost Value = { ℕ };

    ghost view = { λ n. n.0 };

    ghost invariant = { λ n. n.0 < 2 ^ 48 };

    ghost inverse = { λ n. record { 0 = n } };
}

impl RequestNo {
    /// The number of the request that begins in `slot` at its turn `turn`, turns being counted from
    /// 0.
    pub fn of(slot: u8, turn: u64) -> RequestNo
        requires slot { slot < 8 }
        requires turn { turn < 2 ^ 45 }
        ensures { result ≡ slot + 8 * turn }
    {
        RequestNo(u64::from(slot) + 8 * turn)
    }

    pub fn get(&self) -> u64
        ensures value { result ≡ self.now }
        ensures below { result < 2 ^ 48 }
    {
        self.0
    }

    /// The slot of its session, 0 to 7.
    pub fn slot(&self) -> u8
        ensures { result ≡ self.now % 8 }
    {
        (self.0 % 8) as u8
    }

    /// How many requests began in its slot before it.
    pub fn turn(&self) -> u64
        ensures { result ≡ self.now / 8 }
    {
        self.0 / 8
    }
}
