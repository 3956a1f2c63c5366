//! The calls of endpoints, by session and request.
ghost use Rattle.std.specs.Prelude.{ℕ, ◌≡◌, List, [], OnOk, OnErr};
ghost use Rattle.memory_count.specs.Faults.{HasCause};
ghost use Rattle.rpc_laws.specs.Endpoints.{Endpoint};
ghost use Rattle.call_book.specs.Requests.{call_kept, NotesCall};
ghost use Rattle.call_book.specs.Requests as told;

use memory_count::{Memory, NoMemory};
use std::alloc::{AllocError, Global};
use std::collections::HashMap;
use std::marker::Model;

/// A call that begins as a request of a session.
#[derive(Debug, Drop)]
pub struct Beginning {
    pub session: u16,
    pub request: u64,
    pub call: u64,
}

impl Model for Beginning {
    ghost Value = { told.Beginning };

    ghost view = { λ b. record { session = b.session; request = b.request; call = b.call } };
}

/// The call of each request of each session of each endpoint for which one was noted.
#[derive(Drop)]
pub struct Requests {
    calls: HashMap<(u8, u32, u16, u64), u64>,
}

impl Model for Requests {
    ghost Value = { List ((ℕ × ℕ × ℕ × ℕ) × ℕ) };

    ghost view = { λ s. s.calls.entries };
}

impl Requests {
    /// With no call.
    pub fn new(alloc: Global) -> Requests
        ensures { result ≡ [] }
    {
        Requests {
            calls: HashMap::new(alloc),
        }
    }

    /// The call that request `request` of session `session` of node `node` in life `life` is.
    pub fn get(&self, node: u8, life: u32, session: u16, request: u64) -> Option<u64>
        ensures { result
            ≡ call_kept self.now (record { node = node; life = life }) session request }
    {
        self.calls.get(&(node, life, session, request)).copied()
    }

    /// Puts the call that begins at a node in a life, where one does. `NoMemory` comes only where
    /// memory for one more was refused, and then nothing changed.
    pub fn note(
        &mut self,
        memory: &mut Memory,
        node: u8,
        life: u32,
        began: Option<Beginning>,
    ) -> Result<(), NoMemory>
        ensures noted { OnOk result
            (NotesCall (record { node = node; life = life }) began self.old self.new) }
        ensures unchanged { OnErr result (self.new ≡ self.old) }
        ensures cause { HasCause memory.old memory.new result }
    {
        let Some(began) = began else {
            return Ok(());
        };
        let key = (node, life, began.session, began.request);
        let Err(failed) = self.calls.insert(key, began.call) else {
            return Ok(());
        };
        memory.of(Err(AllocError::from(failed)))
    }
}
