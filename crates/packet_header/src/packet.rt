//! The packets as values.
ghost use Rattle.std.specs.Prelude.{◌≡◌};
ghost use Rattle.packet_header.specs.Kinds.{is_asking, is_cr, is_last, is_response, is_rfr};

use crate::life::Life;
use crate::parts::count;
use rpc_base::{RequestNo, SessionNo};
use std::error::Error;
use std::fmt;

/// The status of a control packet that accepts or is done.
pub const ACCEPTED: u8 = 0;

/// The status of a ConnectReply where the server has no room.
pub const NO_ROOM: u8 = 1;

/// The status of a DisconnectReply where the session is gone.
pub const GONE: u8 = 2;

/// The kinds of packet that carry a call.
#[derive(Clone, Copy, Debug, PartialEq, Eq)]
pub enum Kind {
    /// From the client: a part of the request.
    Request,
    /// From the client: asks for the next part of the response, and has no body.
    Rfr,
    /// From the server: gives a credit back, and has no body.
    Cr,
    /// From the server: a part of the response.
    Response,
}

impl Kind {
    /// Whether a packet asks for the next part of the response.
    pub fn is_rfr(self) -> bool
        ensures { result ≡ is_rfr self }
    {
        matches!(self, Kind::Rfr)
    }

    /// Whether a packet gives a credit back.
    pub fn is_cr(self) -> bool
        ensures { result ≡ is_cr self }
    {
        matches!(self, Kind::Cr)
    }

    /// Whether a packet is a part of the response.
    pub fn is_response(self) -> bool
        ensures { result ≡ is_response self }
    {
        matches!(self, Kind::Response)
    }

    /// Whether a client sends the packet to a server.
    pub fn is_asking(self) -> bool
        ensures { result ≡ is_asking self }
    {
        matches!(self, Kind::Request | Kind::Rfr)
    }
}

/// The header of a packet that carries a call.
#[derive(Clone, Copy, Debug, PartialEq, Eq)]
pub struct MessageHeader {
    pub kind: Kind,
    /// The request's type, which names its handler.
    pub req_type: u8,
    /// The bytes of the whole message that this packet is a part of.
    pub size: u32,
    /// The receiver's number of the session.
    pub session: SessionNo,
    /// The number of this packet, counted from 0 in its direction of the call.
    pub number: u16,
    pub request: RequestNo,
    /// The receiver's life.
    pub to_life: Life,
}

impl MessageHeader {
    /// Whether the packet is the last of its request.
    pub fn is_last(&self) -> bool
        ensures { result ≡ is_last self.now }
    {
        !self.kind.is_rfr() && u32::from(self.number) + 1 == count(self.size)
    }
}

/// The kinds of packet that open and close sessions.
#[derive(Clone, Copy, Debug, PartialEq, Eq)]
pub enum ControlKind {
    ConnectRequest,
    ConnectReply,
    DisconnectRequest,
    DisconnectReply,
}

/// The header of a packet that opens or closes a session. Such a packet has no body.
#[derive(Clone, Copy, Debug, PartialEq, Eq)]
pub struct ControlHeader {
    pub kind: ControlKind,
    /// The client's number of the session.
    pub client: SessionNo,
    /// The server's number of the session, if it has one.
    pub server: Option<SessionNo>,
    /// The session's credits, in packets.
    pub credits: u16,
    /// `ACCEPTED`, `NO_ROOM` or `GONE`.
    pub status: u8,
    /// The sender's life.
    pub from_life: Life,
    /// The receiver's life, if the sender knows it.
    pub to_life: Option<Life>,
}

/// The header of a datagram.
#[derive(Clone, Copy, Debug, PartialEq, Eq)]
pub enum Packet {
    Message(MessageHeader),
    Control(ControlHeader),
}

/// Why a datagram is no packet: the first of these that holds.
#[derive(Clone, Copy, Debug, PartialEq, Eq)]
pub enum BadPacket {
    /// It has fewer bytes than a header.
    Short { len: usize },
    /// It doesn't begin with the magic byte.
    Magic { byte: u8 },
    /// There is no such kind.
    Kind { byte: u8 },
    /// A field is outside its range, and this is the offset of the first such field.
    Field { at: u8 },
    /// The datagram has `got` bytes, and its header tells `want`.
    Length { want: usize, got: usize },
}

impl fmt::Display for BadPacket {
    fn fmt<W: fmt::Write>(&self, f: &mut fmt::Formatter<W>) -> fmt::Result {
        match self {
            BadPacket::Short { len } => write!(f, "{len} bytes are fewer than a header"),
            BadPacket::Magic { byte } => write!(f, "byte 0 is {byte}, not the magic byte"),
            BadPacket::Kind { byte } => write!(f, "there is no kind of packet {byte}"),
            BadPacket::Field { at } => write!(f, "the field at byte {at} is out of its range"),
            BadPacket::Length { want, got } => {
                write!(f, "there are {got} bytes, and the header tells {want}")
            }
        }
    }
}

impl Error for BadPacket {}
