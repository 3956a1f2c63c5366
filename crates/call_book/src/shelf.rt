//! Values by the number of a thing of an endpoint.
ghost use Rattle.std.specs.Prelude.{ℕ, ◌≡◌, List, [], OnOk, OnErr};
ghost use Rattle.std.specs.Option.{option_copied};
ghost use Rattle.memory_count.specs.Faults.{HasCause};
ghost use Rattle.rpc_laws.specs.Endpoints.{Endpoint};
ghost use Rattle.call_book.specs.Shelf.{kept, Notes, Puts};

use memory_count::{Memory, NoMemory};
use std::alloc::{AllocError, Global};
use std::collections::HashMap;
use std::marker::Model;

/// A value for each number of each endpoint for which one was put.
#[derive(Drop)]
pub struct Shelf<V> {
    values: HashMap<(u8, u32, u64), V>,
}

impl<V> Model for Shelf<V> {
    ghost Value = { List ((ℕ × ℕ × ℕ) × V) };

    ghost view = { λ s. s.values.entries };
}

impl<V: Drop> Shelf<V> {
    /// With no value.
    pub fn new(alloc: Global) -> Shelf<V>
        ensures { result ≡ [] }
    {
        Shelf {
            values: HashMap::new(alloc),
        }
    }

    /// The value of number `number` of node `node` in life `life`.
    pub fn get(&self, node: u8, life: u32, number: u64) -> Option<&V>
        ensures { option_copied result
            ≡ kept self.now (record { node = node; life = life }) number }
    {
        self.values.get(&(node, life, number))
    }

    /// Puts a value for a number, in place of the one that it had. `NoMemory` comes only where
    /// memory for one more was refused, and then nothing changed.
    pub fn put(
        &mut self,
        memory: &mut Memory,
        node: u8,
        life: u32,
        number: u64,
        value: V,
    ) -> Result<(), NoMemory>
        ensures put { OnOk result
            (Puts (record { node = node; life = life }) number value self.old self.new) }
        ensures unchanged { OnErr result (self.new ≡ self.old) }
        ensures cause { HasCause memory.old memory.new result }
    {
        match self.values.insert((node, life, number), value) {
            Ok(_) => Ok(()),
            Err(failed) => memory.of(Err(AllocError::from(failed))),
        }
    }

    /// Puts what is told of a number of a node in a life, where something is. `NoMemory` comes only
    /// where memory for one more was refused, and then nothing changed.
    pub fn note(
        &mut self,
        memory: &mut Memory,
        node: u8,
        life: u32,
        told: Option<(u64, V)>,
    ) -> Result<(), NoMemory>
        ensures noted { OnOk result
            (Notes (record { node = node; life = life }) told self.old self.new) }
        ensures unchanged { OnErr result (self.new ≡ self.old) }
        ensures cause { HasCause memory.old memory.new result }
    {
        if let Some((number, value)) = told {
            self.put(memory, node, life, number, value)?;
        }
        Ok(())
    }
}
