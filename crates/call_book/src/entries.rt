//! What a book has of sessions and calls.
ghost use Rattle.std.specs.Prelude.{ℕ, ◌≡◌};
ghost use Rattle.std.specs.Option.{option_copied};
ghost use Rattle.lawful_history.specs.Told as told;
ghost use Rattle.lawful_history.specs.Told.{asks_this, has_bytes, is_end, is_joining};
ghost use Rattle.lawful_history.specs.Told.{is_too_large};

use rpc_base::Octets;
use std::marker::Model;

/// An end of a session, client or server.
#[derive(Debug, Drop)]
pub struct End {
    pub node: u8,
    pub life: u32,
    pub session: u16,
}

impl Model for End {
    ghost Value = { told.SessionEnd };

    ghost view = { λ e. told.named e.node e.life e.session };
}

/// With which server session, in which life of the peer, a client session was connected.
#[derive(Debug, Drop)]
pub struct Joining {
    pub session: u16,
    pub life: u32,
}

impl Model for Joining {
    ghost Value = { told.Joining };

    ghost view = { λ j. record { session = j.session; life = j.life } };
}

/// What a call asks: its session, type, room in bytes, and bytes.
#[derive(Debug, Drop)]
pub struct Ask {
    pub session: u16,
    pub req_type: u8,
    pub room: u32,
    pub bytes: Octets,
}

impl Model for Ask {
    ghost Value = { told.Ask };

    ghost view = { λ a. record {
      session = a.session;
      req_type = a.req_type;
      room = a.room;
      bytes = a.bytes;
    } };
}

/// A call of an endpoint and a session.
#[derive(Debug, Drop)]
pub struct NodeCall {
    pub node: u8,
    pub life: u32,
    pub session: u16,
    pub call: u64,
}

impl Model for NodeCall {
    ghost Value = { told.NodeCall };

    ghost view = { λ k. record {
      at = record { node = k.node; life = k.life };
      session = k.session;
      call = k.call;
    } };
}

/// An answer, and the room in bytes that its call has for it.
#[derive(Debug, Drop)]
pub struct Answer {
    pub room: u32,
    pub bytes: Octets,
}

impl Model for Answer {
    ghost Value = { told.Answer };

    ghost view = { λ a. record { room = a.room; bytes = a.bytes } };
}

/// Whether it is this end.
pub fn is_end(end: Option<&End>, node: u8, life: u32, session: u16) -> bool
    ensures { result ≡ is_end (record { node = node; life = life }) session
        (option_copied end.entry) }
{
    match end {
        Some(end) => end.node == node && end.life == life && end.session == session,
        None => false,
    }
}

/// Whether a client session was connected with this server session of a peer in this life.
pub fn is_joining(joining: Option<&Joining>, session: u16, life: u32) -> bool
    ensures { result ≡ is_joining session life (option_copied joining.entry) }
{
    match joining {
        Some(joining) => joining.session == session && joining.life == life,
        None => false,
    }
}

/// Whether a call asks this, on this session.
pub fn asks_this(ask: Option<&Ask>, session: u16, req_type: u8, bytes: &[u8]) -> bool
    ensures { result ≡ asks_this session req_type bytes.now (option_copied ask.entry) }
{
    match ask {
        Some(ask) => {
            ask.session == session && ask.req_type == req_type && ask.bytes.bytes() == bytes
        }
        None => false,
    }
}

/// Whether an answer has these bytes.
pub fn has_bytes(answer: Option<&Answer>, bytes: &[u8]) -> bool
    ensures { result ≡ has_bytes bytes.now (option_copied answer.entry) }
{
    match answer {
        Some(answer) => answer.bytes.bytes() == bytes,
        None => false,
    }
}

/// Whether an answer has `size` bytes, more than its room.
pub fn is_too_large(answer: Option<&Answer>, size: u32) -> bool
    ensures { result ≡ is_too_large size (option_copied answer.entry) }
{
    match answer {
        Some(answer) => answer.bytes.len() as u64 == u64::from(size) && answer.room < size,
        None => false,
    }
}
