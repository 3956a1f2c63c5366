//! Bytes that a fact or a datagram owns.
ghost use Rattle.std.specs.Prelude.{◌≡◌, ◌==◌, ◌++◌, ℕ, List, length, IfOk, OnOk, OnErr};

use std::alloc::{AllocError, Global};
use std::marker::Model;

/// A list of bytes, which contracts see as the list.
#[derive(Debug, Drop)]
pub struct Octets {
    items: Vec<u8>,
}

impl Model for Octets {
    ghost Value = { List ℕ };

    ghost view = { λ o. o.items.items };
}

impl Octets {
    /// Copies the bytes. An error comes only where there is no memory for them.
    pub fn copy(alloc: Global, from: &[u8]) -> Result<Octets, AllocError>
        ensures { IfOk result (λ o. o ≡ from.now) }
    {
        let items = Vec::from_slice(alloc, from)?;
        Ok(Octets { items })
    }

    /// How many bytes there are.
    pub fn len(&self) -> usize
        ensures { result ≡ length self.now }
    {
        self.items.len()
    }

    pub fn is_empty(&self) -> bool
        ensures { result ≡ (length self.now == 0) }
    {
        self.items.is_empty()
    }

    /// Puts more bytes at the end. An error comes only where there is no memory for them, and then
    /// nothing changed.
    pub fn append(&mut self, more: &[u8]) -> Result<(), AllocError>
        ensures appended { OnOk result (self.new ≡ self.old ++ more.now) }
        ensures unchanged { OnErr result (self.new ≡ self.old) }
    {
        self.items.extend_from_slice(more)?;
        Ok(())
    }

    /// Lends the bytes.
    pub fn bytes(&self) -> &[u8]
        ensures { result.now ≡ self.now }
    {
        self.items.as_slice()
    }
}

impl From<Vec<u8>> for Octets {
    ghost from_gives = { λ v o. o ≡ v.items };

    fn from(items: Vec<u8>) -> Self {
        Octets { items }
    }
}
