//! A server session.
ghost use Rattle.std.specs.Prelude.{◌≡◌, ◌<◌, ◌≤◌, [], ◌∷◌, IfOk};
ghost use Rattle.buffer_pool.specs.Pool.{Pool};
ghost use Rattle.memory_count.specs.Faults.{HasCause};
ghost use Rattle.server_core.specs.Counting.{CountsQueued};
ghost use Rattle.server_core.specs.Flushing.{HoldsAll};
ghost use Rattle.server_core.specs.KeepsPool.{KeepsPool};
ghost use Rattle.server_core.specs.Session.{IsSession, new_session, newest, owner_in};
ghost use Rattle.server_core.specs.Shown.{paired, shown};

mod again;
mod asked;
mod conditions;
mod finish;
mod flushing;
mod giving;
mod noting;
mod reply;
mod request;
mod serving;
mod taking;

use crate::slot::SlotRequest;
use crate::slots::Slots;
use memory_count::{Memory, NoMemory};
use packet_header::Life;
use rpc_base::{MOST_CREDITS, Owner, Peer, RequestNo, SESSION_NUMBERS, SessionNo};
use std::marker::Model;

/// The newest requests of one server session. Contracts see its numbers, the client's life and its
/// peer, its credits and the newest request of each slot, in the order in which they began.
#[derive(Drop)]
pub struct ServerSession {
    number: SessionNo,
    client: SessionNo,
    life: Life,
    peer: Peer,
    credits: u16,
    slots: Slots,
}

impl Model for ServerSession {
    ghost use Rattle.server_core.specs.Session.{Session, IsSession};

    ghost Value = { Session };

    ghost view = { λ s. record {
      number = s.number;
      client = s.client;
      life = s.life;
      peer = s.peer;
      credits = s.credits;
      slots = s.slots;
    } };

    ghost invariant = { λ s. IsSession (record {
      number = s.number;
      client = s.client;
      life = s.life;
      peer = s.peer;
      credits = s.credits;
      slots = s.slots;
    }) };
}

impl ServerSession {
    /// A session in which no request began, by its number here and at the client, each below
    /// 65,535, with the client's life, its peer and 1 to 256 credits. `NoMemory` comes only where
    /// there is no memory for the slots' own buffers.
    pub fn new(
        memory: &mut Memory,
        session: SessionNo,
        client: SessionNo,
        life: Life,
        peer: Peer,
        credits: u16,
    ) -> Result<ServerSession, NoMemory>
        requires session { session < SESSION_NUMBERS }
        requires client { client < SESSION_NUMBERS }
        requires alive { 1 ≤ life }
        requires some { 1 ≤ credits }
        requires most { credits ≤ MOST_CREDITS }
        ensures session { IfOk result (λ s. s ≡ new_session session client life peer credits) }
        ensures keeps_pool { IfOk result (λ s. (pool : Pool) → KeepsPool pool s.slots) }
        ensures holds { IfOk result (λ s. (pool : Pool) → HoldsAll s pool []) }
        ensures queued { IfOk result (λ s. CountsQueued s []) }
        ensures step { IfOk result (λ s. (pool : Pool)
            → paired session client peer credits life ≡ shown pool s ∷ []) }
        ensures cause { HasCause memory.old memory.new result }
    {
        let slots = Slots::new(memory)?;
        Ok(ServerSession {
            number: session,
            client,
            life,
            peer,
            credits,
            slots,
        })
    }

    /// The session's number here.
    pub fn session(&self) -> SessionNo
        ensures { result ≡ self.now.number }
    {
        self.number
    }

    /// The session's number at the client.
    pub fn client(&self) -> SessionNo
        ensures { result ≡ self.now.client }
    {
        self.client
    }

    /// The client's life.
    pub fn life(&self) -> Life
        ensures { result ≡ self.now.life }
    {
        self.life
    }

    /// The client's peer.
    pub fn peer(&self) -> Peer
        ensures { result ≡ self.now.peer }
    {
        self.peer
    }

    /// How many credits the session has.
    pub fn credits(&self) -> u16
        ensures { result ≡ self.now.credits }
    {
        self.credits
    }

    /// Whose packets the replies to the newest request of a slot, 0 to 7, are. None comes exactly
    /// where no request began there.
    pub fn owner(&self, slot: u8) -> Option<Owner>
        requires { slot < 8 }
        ensures { result ≡ owner_in slot self.now }
    {
        let Some(request) = self.slots.of_slot(slot) else {
            return None;
        };
        Some(request.owner(self.number))
    }

    // The newest request of the slot of this number, if one began there.
    fn newest(&self, request: RequestNo) -> Option<SlotRequest>
        ensures { result ≡ newest request self.now }
    {
        self.slots.of_slot(request.slot())
    }

    /// What always holds of a session holds of this one.
    pub fn sound(&self)
        ensures { IsSession self.now }
    {
        let _number = self.number;
    }
}
