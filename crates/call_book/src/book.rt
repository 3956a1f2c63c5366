//! The book of sessions and calls.
ghost use Rattle.std.specs.Prelude.{ℕ, ◌≡◌, ◌++◌, ◌∷◌, [], ◌↔◌, List, IsTrue, OnOk, IfOk};
ghost use Rattle.memory_count.specs.Faults.{HasCause};
ghost use Rattle.rpc_laws.specs.Endpoints.{Endpoint, life_at, Lived};
ghost use Rattle.rpc_base.specs.declared.fact.Fact.{Fact};
ghost use Rattle.lawful_history.specs.Told.{is_own};
ghost use Rattle.call_book.specs.Kept.{answer_in, answers_at, asks_in, begun_in, is_joined_in};
ghost use Rattle.call_book.specs.Kept.{is_own_in, run_in};
ghost use Rattle.call_book.specs.Requests.{begins_as};
ghost use Rattle.call_book.specs.SoFar.{CallsTold, so_far};
ghost use Rattle.call_book.specs.Tells.{Tells};

use crate::entries::{
    Answer, Ask, End, Joining, NodeCall, asks_this, has_bytes, is_end, is_joining, is_too_large,
};
use crate::requests::{Beginning, Requests};
use crate::shelf::Shelf;
use crate::telling::{ask_told, connected_told, opened_told, paired_told, server_told};
use memory_count::{Memory, NoMemory};
use rpc_base::{Event, Fact, NodeId, Octets, Who};
use std::alloc::Global;

/// What the facts so far tell of sessions and calls, each by the newest that tells of it.
#[derive(Drop)]
pub struct Book {
    servers: Shelf<End>,
    paired: Shelf<End>,
    opened: Shelf<u8>,
    connected: Shelf<Joining>,
    asks: Shelf<Ask>,
    calls: Requests,
    answers: Shelf<Answer>,
}

impl Book {
    /// Before any fact.
    pub fn new(alloc: Global) -> Book
        ensures { Tells result [] }
    {
        Book {
            servers: Shelf::new(alloc),
            paired: Shelf::new(alloc),
            opened: Shelf::new(alloc),
            connected: Shelf::new(alloc),
            asks: Shelf::new(alloc),
            calls: Requests::new(alloc),
            answers: Shelf::new(alloc),
        }
    }

    // Whether a client session is joined to a server session of a node in a life.
    fn is_joined(&self, client: &End, node: u8, life: u32, session: u16) -> bool
        ensures { result ≡ is_joined_in self.now client.now.at client.now.session
            (record { node = node; life = life }) session }
    {
        let number = u64::from(client.session);
        let paired = self.paired.get(client.node, client.life, number);
        if is_end(paired, node, life, session) {
            return true;
        }
        let Some(opened) = self.opened.get(client.node, client.life, number) else {
            return false;
        };
        let connected = self.connected.get(client.node, client.life, number);
        *opened == node && is_joining(connected, session, life)
    }

    // Which call a request of a server session is.
    fn run_of(&self, node: u8, life: u32, session: u16, request: u64) -> Option<NodeCall>
        ensures { result ≡ run_in self.now (record { node = node; life = life }) session request }
    {
        let Some(client) = self.servers.get(node, life, u64::from(session)) else {
            return None;
        };
        if !self.is_joined(client, node, life, session) {
            return None;
        }
        let call = self
            .calls
            .get(client.node, client.life, client.session, request);
        match call {
            Some(call) => Some(NodeCall {
                node: client.node,
                life: client.life,
                session: client.session,
                call,
            }),
            None => None,
        }
    }

    // Whether a call asks this.
    fn asks(&self, call: &Option<NodeCall>, req_type: u8, bytes: &[u8]) -> bool
        ensures { result ≡ asks_in self.now req_type bytes.now call.now }
    {
        match call {
            Some(call) => {
                let ask = self.asks.get(call.node, call.life, call.call);
                asks_this(ask, call.session, req_type, bytes)
            }
            None => false,
        }
    }

    // Which call begins by an event of a node in a life.
    fn began(&self, node: u8, life: u32, event: &Event) -> Option<Beginning>
        ensures { (s r : ℕ) → begins_as s r result
            ≡ begun_in self.now (record { node = node; life = life }) s r event.now }
    {
        let Event::Begun { call, request } = event else {
            return None;
        };
        let Some(ask) = self.asks.get(node, life, call.0) else {
            return None;
        };
        Some(Beginning {
            session: ask.session,
            request: request.get(),
            call: call.0,
        })
    }

    // The answer that the handler of a call gives by a fact of a node in a life.
    fn answered(
        &self,
        memory: &mut Memory,
        node: u8,
        life: u32,
        fact: &Fact,
    ) -> Result<Option<(NodeCall, Answer)>, NoMemory>
        ensures answers { IfOk result (λ told. (n : Endpoint) (c : ℕ) → answers_at n c told
            ≡ answer_in self.now (record { node = node; life = life }) n c
            fact.now.event fact.now.first fact.now.second) }
        ensures cause { HasCause memory.old memory.new result }
    {
        let Event::Ran {
            session,
            request,
            req_type,
        } = fact.event
        else {
            return Ok(None);
        };
        let Some(call) = self.run_of(node, life, session.0, request.get()) else {
            return Ok(None);
        };
        let Some(ask) = self.asks.get(call.node, call.life, call.call) else {
            return Ok(None);
        };
        if !asks_this(Some(ask), call.session, req_type, fact.first.bytes()) {
            return Ok(None);
        }
        let bytes = Octets::from(memory.copied(fact.second.bytes())?);
        let room = ask.room;
        Ok(Some((call, Answer { room, bytes })))
    }

    // Enters what a fact tells before which its node has this life.
    fn enter(&mut self, memory: &mut Memory, fact: &Fact, life: u32) -> Result<(), NoMemory>
        ensures entered { OnOk result ((past : List Lived) → Tells self.old past
            → Tells self.new (record { life = life; fact = fact.now } ∷ past)) }
        ensures cause { HasCause memory.old memory.new result }
    {
        let Who::Node(node) = fact.who else {
            return Ok(());
        };
        let node = node.0;
        let event = &fact.event;
        let began = self.began(node, life, event);
        let answered = self.answered(memory, node, life, fact)?;
        let ask = ask_told(memory, event, fact.first.bytes())?;
        self.servers.note(memory, node, life, server_told(event))?;
        self.paired.note(memory, node, life, paired_told(event))?;
        self.opened.note(memory, node, life, opened_told(event))?;
        self.connected
            .note(memory, node, life, connected_told(event))?;
        self.asks.note(memory, node, life, ask)?;
        self.calls.note(memory, node, life, began)?;
        if let Some((call, answer)) = answered {
            self.answers
                .put(memory, call.node, call.life, call.call, answer)?;
        }
        Ok(())
    }

    /// Takes note of the next fact of a history, before which its node has this life. `NoMemory`
    /// comes only where memory for what it tells was refused; the book is of no use then.
    pub fn note(&mut self, memory: &mut Memory, fact: &Fact, life: u32) -> Result<(), NoMemory>
        ensures noted { OnOk result ((h : List Fact) → life ≡ life_at fact.now.who (so_far h)
            → Tells self.old (so_far h) → Tells self.new (so_far (h ++ fact.now ∷ []))) }
        ensures cause { HasCause memory.old memory.new result }
    {
        self.enter(memory, fact, life)
    }

    // Whether an event of a node in a life is of a call.
    fn holds(&self, node: u8, life: u32, event: &Event, first: &[u8]) -> bool
        ensures { result ≡ is_own_in self.now (record { node = node; life = life })
            event.now first.now }
    {
        match event {
            Event::Begun { call, .. } => self.asks.get(node, life, call.0).is_some(),
            Event::Ran {
                session,
                request,
                req_type,
            } => {
                let call = self.run_of(node, life, session.0, request.get());
                self.asks(&call, *req_type, first)
            }
            Event::DoneOk { call } => has_bytes(self.answers.get(node, life, call.0), first),
            Event::DoneTooSmall { call, size } => {
                is_too_large(self.answers.get(node, life, call.0), *size)
            }
            _ => true,
        }
    }

    // Whether an event of a node in a life, with these first bytes, is of a call, as the facts so
    // far tell.
    fn is_own(&self, node: NodeId, life: u32, event: &Event, first: &[u8]) -> bool
        ensures { (past : List Lived) → Tells self.now past
            → result ≡ is_own past (record { node = node; life = life }) event.now first.now }
    {
        self.holds(node.0, life, event, first)
    }

    /// Whether each fact of a history is of a call still, as those before it tell, where the next
    /// one is this, before which its node has this life.
    pub fn keeps_own(&self, fact: &Fact, life: u32) -> bool
        ensures { (h : List Fact) → life ≡ life_at fact.now.who (so_far h)
            → Tells self.now (so_far h) → CallsTold h
            → IsTrue result ↔ CallsTold (h ++ fact.now ∷ []) }
    {
        match fact.who {
            Who::Node(node) => self.is_own(node, life, &fact.event, fact.first.bytes()),
            Who::Net => true,
        }
    }
}
