//! The ranges of the fields: tests of those of a message header, and a row for each kind of control
//! packet.
ghost use Rattle.std.specs.Prelude.{◌≡◌};
ghost use Rattle.packet_header.specs.Ranges.{control_row, lives, message_row, sessions, span};
ghost use Rattle.packet_header.specs.Ranges.{within};

use crate::layout::{NO_LIFE, NO_SESSION};
use crate::packet::{ControlKind, GONE, Kind, NO_ROOM};
use crate::parts::count;
use rpc_base::{MOST_CREDITS, MOST_MESSAGE_BYTES};

/// The greatest number of a packet: a request and a response of 1,024 packets each, where the
/// response's first answers the request's last.
const LAST_NUMBER: u32 = 2046;

/// The greatest number of a CR: the last of 1,024 request packets is answered by a response.
const LAST_CR: u32 = 1022;

/// The numbers from `lowest` to `highest`, both among them.
#[derive(Clone, Copy)]
pub struct Span {
    pub lowest: u32,
    pub highest: u32,
}

impl Span {
    pub fn new(lowest: u32, highest: u32) -> Span
        ensures { result ≡ span lowest highest }
    {
        Span { lowest, highest }
    }

    /// The numbers of sessions.
    pub fn sessions() -> Span
        ensures { result ≡ sessions }
    {
        Span::new(0, u32::from(NO_SESSION) - 1)
    }

    /// The numbers of lives.
    pub fn lives() -> Span
        ensures { result ≡ lives }
    {
        Span::new(NO_LIFE + 1, u32::MAX)
    }

    pub fn contains(&self, number: u32) -> bool
        ensures { result ≡ within self.now number }
    {
        self.lowest <= number && number <= self.highest
    }
}

/// Whether a type is in the range of its kind.
#[inline(always)]
pub fn is_type(kind: Kind, req_type: u8) -> bool
    ensures { result ≡ within (message_row kind 0).types req_type }
{
    match kind {
        Kind::Request | Kind::Response => true,
        Kind::Rfr | Kind::Cr => req_type == 0,
    }
}

/// Whether the size of a message, in bytes, is in the range of its kind.
#[inline(always)]
pub fn is_size(kind: Kind, size: u32) -> bool
    ensures { result ≡ within (message_row kind size).sizes size }
{
    match kind {
        Kind::Request | Kind::Response => size <= MOST_MESSAGE_BYTES,
        Kind::Rfr | Kind::Cr => size == 0,
    }
}

/// Whether the number of a packet is in the range of its kind. That of a request depends on the
/// size of its message.
#[inline(always)]
pub fn is_number(kind: Kind, size: u32, number: u16) -> bool
    ensures { result ≡ within (message_row kind size).numbers number }
{
    match kind {
        Kind::Request => u32::from(number) < count(size),
        Kind::Rfr => number != 0 && u32::from(number) <= LAST_NUMBER,
        Kind::Cr => u32::from(number) <= LAST_CR,
        Kind::Response => u32::from(number) <= LAST_NUMBER,
    }
}

/// The ranges of a control header's fields that differ from kind to kind.
#[derive(Clone, Copy)]
pub struct ControlRow {
    /// Whether there is a server session.
    pub has_server: bool,
    pub credits: Span,
    /// The status that tells a refusal, and 0 where the kind has none. Status 0 is always in range.
    pub refusal: u8,
    /// Whether the receiver's life is known.
    pub has_life: bool,
}

impl ControlRow {
    /// The row of a kind. A ConnectReply has a server session unless it is a refusal.
    pub fn of(kind: ControlKind, status: u8) -> ControlRow
        ensures { result ≡ control_row kind status }
    {
        let some = Span::new(1, u32::from(MOST_CREDITS));
        let none = Span::new(0, 0);
        let (has_server, credits, refusal, has_life) = match kind {
            ControlKind::ConnectRequest => (false, some, 0, false),
            ControlKind::ConnectReply => (status != NO_ROOM, some, NO_ROOM, true),
            ControlKind::DisconnectRequest => (true, none, 0, true),
            ControlKind::DisconnectReply => (true, none, GONE, true),
        };
        ControlRow {
            has_server,
            credits,
            refusal,
            has_life,
        }
    }
}
