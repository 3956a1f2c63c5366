//! The address that a link in memory is bound to.
ghost use Rattle.std.specs.Prelude.{◌≡◌, ◌≤◌, length, None, IfSome, IsSome};

use crate::memory::copying::copy_front;
use std::marker::Model;

/// The bytes of the longest address that a link in memory tells.
pub const MOST_ADDRESS_BYTES: usize = 64;

/// An address with its bytes inline, so that binding takes no memory. Contracts see its bytes,
/// where one of at most 64 bytes was kept.
#[derive(Debug, Drop)]
pub struct Address {
    bytes: [u8; MOST_ADDRESS_BYTES],
    len: Option<usize>,
}

impl Model for Address {
    ghost use Rattle.std.specs.Prelude.{ℕ, ◌≤◌, List, Option, option_map, take};
    ghost use Rattle.std.specs.Option.{ForSome};
    ghost use Rattle.rpc_outside.specs.declared.memory.address.TheConstants.{MOST_ADDRESS_BYTES};

    ghost Value = { Option (List ℕ) };

    ghost view = { λ a. option_map (λ n. take n a.bytes) a.len };

    ghost invariant = { λ a. ForSome a.len (λ n. n ≤ MOST_ADDRESS_BYTES) };
}

impl Address {
    /// No address.
    pub fn none() -> Address
        ensures { result ≡ None }
    {
        Address {
            bytes: [0; MOST_ADDRESS_BYTES],
            len: None,
        }
    }

    /// This address. It is told where it has at most 64 bytes.
    pub fn of(addr: &str) -> Address
        ensures bytes { IfSome result (λ bytes. bytes ≡ addr.now) }
        ensures told { length addr.now ≤ MOST_ADDRESS_BYTES → IsSome result }
    {
        let mut bytes = [0; MOST_ADDRESS_BYTES];
        let text = addr.as_bytes();
        if text.len() > MOST_ADDRESS_BYTES {
            return Address::none();
        }
        let len = copy_front(text, &mut bytes);
        Address {
            bytes,
            len: Some(len),
        }
    }
}
