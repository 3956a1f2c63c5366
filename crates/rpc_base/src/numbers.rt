//! Numbers with a name of their own. A contract sees each as the number that it is.
ghost use Rattle.std.specs.Prelude.{ℕ, ◌<◌, ◌^◌};

use std::marker::Model;

/// A node of a script, numbered from 0 in the order of the node lines.
#[derive(Clone, Copy, Debug, PartialEq, Eq)]
pub struct NodeId(pub u8);

impl Model for NodeId {
    ghost Value = { ℕ };

    ghost view = { λ n. n.0 };

    ghost invariant = { λ n. n.0 < 2 ^ 8 };

    ghost inverse = { λ n. record { 0 = n } };
}

/// A peer of an endpoint, numbered from 0 in order of first use. In `erpc sim` a peer's number
/// is its node's number.
#[derive(Clone, Copy, Debug, PartialEq, Eq)]
pub struct Peer(pub u8);

impl Model for Peer {
    ghost Value = { ℕ };

    ghost view = { λ n. n.0 };

    ghost invariant = { λ n. n.0 < 2 ^ 8 };

    ghost inverse = { λ n. record { 0 = n } };
}

/// A client or a server session of an endpoint, two separate sequences. Each runs from 0 to
/// 65,534; no number is used twice in an endpoint's life.
#[derive(Clone, Copy, Debug, PartialEq, Eq)]
pub struct SessionNo(pub u16);

impl Model for SessionNo {
    ghost Value = { ℕ };

    ghost view = { λ n. n.0 };

    ghost invariant = { λ n. n.0 < 2 ^ 16 };

    ghost inverse = { λ n. record { 0 = n } };
}

/// A call of an endpoint: accepted calls are counted from 0.
#[derive(Clone, Copy, Debug, PartialEq, Eq)]
pub struct CallNo(pub u64);

impl Model for CallNo {
    ghost Value = { ℕ };

    ghost view = { λ n. n.0 };

    ghost invariant = { λ n. n.0 < 2 ^ 64 };

    ghost inverse = { λ n. record { 0 = n } };
}

/// A place of an endpoint's pool of message buffers.
#[derive(Clone, Copy, Debug, PartialEq, Eq)]
pub struct Place(pub u32);

impl Model for Place {
    ghost Value = { ℕ };

    ghost view = { λ n. n.0 };

    ghost invariant = { λ n. n.0 < 2 ^ 32 };

    ghost inverse = { λ n. record { 0 = n } };
}
