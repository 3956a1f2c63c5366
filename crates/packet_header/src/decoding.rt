//! Reading a datagram's header. The refusals come in one order: length of the header, magic byte,
//! kind, fields by offset, length of the datagram.
ghost use Rattle.std.specs.Prelude.{◌≡◌, ◌≢◌, ◌≤◌, ◌<◌, ◌↔◌, IfOk, None, Some, length};
ghost use Rattle.packet_header.specs.Header.{Spells, number_at};
ghost use Rattle.packet_header.specs.Refusals.{Refuses};
ghost use Rattle.packet_header.specs.declared.packet.BadPacket.{BadPacket};
ghost use Rattle.packet_header.specs.declared.packet.Packet.{Packet};
ghost use Rattle.packet_header.specs.declared.packet.Packet.TheVariants.{Message};
ghost use Rattle.packet_header.specs.Reading.{control_at, control_fault, control_read, decoded};
ghost use Rattle.packet_header.specs.Reading.{is_full_part, is_life, is_server, kind_of, life_of};
ghost use Rattle.packet_header.specs.Reading.{message_at, message_fault, message_of, message_read};
ghost use Rattle.packet_header.specs.Reading.{server_of, wanted};
ghost use Rattle.packet_header.specs.Parts.{packet_count};

use crate::layout::{
    CLIENT, CREDITS, FOUR_BYTES, FROM_LIFE, KIND, MAGIC, NO_LIFE, NO_SESSION, NUMBER, PADDING,
    PADDING_BYTES, REQUEST, REQUEST_LOW, SERVER, SESSION, SIZE, STATUS, TO_LIFE, TYPE,
};
use crate::life::Life;
use crate::packet::{ACCEPTED, BadPacket, ControlHeader, ControlKind, Kind, MessageHeader, Packet};
use crate::parts::{count, part_len};
use crate::ranges::{ControlRow, Span, is_number, is_size, is_type};
use byteorder::{BigEndian, ByteOrder};
use rpc_base::{HEAD_BYTES, PART_BYTES, RequestNo, SessionNo};

/// A kind of either sort of packet.
#[derive(Clone, Copy)]
enum AnyKind {
    OfMessage(Kind),
    OfControl(ControlKind),
}

/// Reads a whole datagram. It is a packet exactly where its bytes spell one; else the answer is the
/// first reason of `BadPacket`, in the order of that type. Fields are tried by their offsets.
#[tactic(auto, unfolding(crate::specs::Reading::decoded))]
#[inline(always)]
pub fn decode(bytes: &[u8]) -> Result<Packet, BadPacket>
    ensures exact { result ≡ decoded bytes.now }
    ensures spelled { IfOk result (λ p. Spells p bytes.now) }
    ensures found { (p : Packet) → Spells p bytes.now → result ≡ Ok p }
    ensures refused { (bad : BadPacket) → (result ≡ Err bad) ↔ Refuses bad bytes.now }
{
    if bytes.len() < HEAD_BYTES {
        return Err(BadPacket::Short { len: bytes.len() });
    }
    if bytes[0] != MAGIC {
        return Err(BadPacket::Magic { byte: bytes[0] });
    }
    match kind_of(bytes[KIND]) {
        Some(AnyKind::OfMessage(kind)) => read_message(kind, bytes),
        Some(AnyKind::OfControl(kind)) => {
            check_control(control_at(kind, bytes), padding_at(bytes), bytes.len())
        }
        None => Err(BadPacket::Kind { byte: bytes[KIND] }),
    }
}

/// The header of a datagram that is known to be a packet of a call: what `decode` finds there, read
/// without its tests.
pub fn message_header(bytes: &[u8]) -> MessageHeader
    requires message { message_of bytes.now ≢ None }
    ensures header { message_of bytes.now ≡ Some result }
    ensures spelled { Spells (Message result) bytes.now }
{
    match kind_of(bytes[KIND]) {
        Some(AnyKind::OfMessage(kind)) => message_at(kind, bytes),
        Some(AnyKind::OfControl(_)) => unreachable!(),
        None => unreachable!(),
    }
}

/// The kind that a byte stands for.
#[tactic(auto, unfolding(crate::specs::Reading::kind_of))]
#[inline(always)]
fn kind_of(byte: u8) -> Option<AnyKind>
    ensures { result ≡ kind_of byte }
{
    match byte {
        0 => Some(AnyKind::OfMessage(Kind::Request)),
        1 => Some(AnyKind::OfMessage(Kind::Rfr)),
        2 => Some(AnyKind::OfMessage(Kind::Cr)),
        3 => Some(AnyKind::OfMessage(Kind::Response)),
        4 => Some(AnyKind::OfControl(ControlKind::ConnectRequest)),
        5 => Some(AnyKind::OfControl(ControlKind::ConnectReply)),
        6 => Some(AnyKind::OfControl(ControlKind::DisconnectRequest)),
        7 => Some(AnyKind::OfControl(ControlKind::DisconnectReply)),
        _ => None,
    }
}

/// The fields of a message header as they stand.
#[tactic(auto, unfolding(crate::specs::Reading::message_at))]
#[inline(always)]
fn message_at(kind: Kind, bytes: &[u8]) -> MessageHeader
    requires { HEAD_BYTES ≤ length bytes.now }
    ensures { result ≡ message_at kind bytes.now }
{
    MessageHeader {
        kind,
        req_type: bytes[TYPE],
        size: BigEndian::read_u24(&bytes[SIZE..]),
        session: SessionNo(BigEndian::read_u16(&bytes[SESSION..])),
        number: BigEndian::read_u16(&bytes[NUMBER..]),
        request: request_at(bytes),
        to_life: Life(BigEndian::read_u32(&bytes[TO_LIFE..])),
    }
}

/// The request number as it stands.
#[inline(always)]
fn request_at(bytes: &[u8]) -> RequestNo
    requires { HEAD_BYTES ≤ length bytes.now }
    ensures { result ≡ number_at 10 6 bytes.now }
{
    let high = BigEndian::read_u16(&bytes[REQUEST..]);
    let low = BigEndian::read_u32(&bytes[REQUEST_LOW..]);
    let number = FOUR_BYTES * u64::from(high) + u64::from(low);
    RequestNo::of((number % 8) as u8, number / 8)
}

/// The fields of a control header as they stand.
#[tactic(auto, unfolding(crate::specs::Reading::control_at))]
fn control_at(kind: ControlKind, bytes: &[u8]) -> ControlHeader
    requires { HEAD_BYTES ≤ length bytes.now }
    ensures { result ≡ control_at kind bytes.now }
{
    ControlHeader {
        kind,
        client: SessionNo(BigEndian::read_u16(&bytes[CLIENT..])),
        server: server_of(BigEndian::read_u16(&bytes[SERVER..])),
        credits: BigEndian::read_u16(&bytes[CREDITS..]),
        status: bytes[STATUS],
        from_life: Life(BigEndian::read_u32(&bytes[FROM_LIFE..])),
        to_life: life_of(BigEndian::read_u32(&bytes[TO_LIFE..])),
    }
}

/// What stands in the bytes that should be zero.
fn padding_at(bytes: &[u8]) -> u32
    requires { HEAD_BYTES ≤ length bytes.now }
    ensures { result ≡ number_at PADDING PADDING_BYTES bytes.now }
{
    BigEndian::read_u24(&bytes[PADDING..])
}

/// The server session that a number stands for.
fn server_of(number: u16) -> Option<SessionNo>
    ensures { result ≡ server_of number }
{
    if number == NO_SESSION {
        None
    } else {
        Some(SessionNo(number))
    }
}

/// The life that a number stands for.
fn life_of(number: u32) -> Option<Life>
    ensures { result ≡ life_of number }
{
    if number == NO_LIFE {
        None
    } else {
        Some(Life(number))
    }
}

/// Reads a datagram of a call. Each kind has an arm of its own, which makes just its tests.
#[inline(always)]
fn read_message(kind: Kind, bytes: &[u8]) -> Result<Packet, BadPacket>
    requires { HEAD_BYTES ≤ length bytes.now }
    ensures { result ≡ message_read (message_at kind bytes.now) (length bytes.now) }
{
    match kind {
        Kind::Request => check_message(message_at(Kind::Request, bytes), bytes.len()),
        Kind::Rfr => check_message(message_at(Kind::Rfr, bytes), bytes.len()),
        Kind::Cr => check_message(message_at(Kind::Cr, bytes), bytes.len()),
        Kind::Response => check_message(message_at(Kind::Response, bytes), bytes.len()),
    }
}

/// The packet of a datagram of `len` bytes, once its fields are read.
#[tactic(auto, unfolding(crate::specs::Reading::message_read))]
#[inline(always)]
fn check_message(header: MessageHeader, len: usize) -> Result<Packet, BadPacket>
    ensures { result ≡ message_read header len }
{
    if let Some(at) = message_fault(&header) {
        return Err(BadPacket::Field { at });
    }
    let want = wanted(&header);
    if len == want || is_full_part(&header, len) {
        Ok(Packet::Message(header))
    } else {
        Err(BadPacket::Length { want, got: len })
    }
}

/// The same, where `padding` stands in the bytes that should be zero.
#[tactic(auto, unfolding(crate::specs::Reading::control_read))]
fn check_control(header: ControlHeader, padding: u32, len: usize) -> Result<Packet, BadPacket>
    ensures { result ≡ control_read header padding len }
{
    if let Some(at) = control_fault(&header, padding) {
        return Err(BadPacket::Field { at });
    }
    if len == HEAD_BYTES {
        Ok(Packet::Control(header))
    } else {
        Err(BadPacket::Length {
            want: HEAD_BYTES,
            got: len,
        })
    }
}

/// The offset of the first field outside its range.
#[tactic(auto, unfolding(crate::specs::Reading::message_fault))]
#[inline(always)]
pub fn message_fault(header: &MessageHeader) -> Option<u8>
    ensures { result ≡ message_fault header.now }
{
    if !is_type(header.kind, header.req_type) {
        Some(TYPE as u8)
    } else if !is_size(header.kind, header.size) {
        Some(SIZE as u8)
    } else if !Span::sessions().contains(u32::from(header.session.0)) {
        Some(SESSION as u8)
    } else if !is_number(header.kind, header.size, header.number) {
        Some(NUMBER as u8)
    } else if !Span::lives().contains(header.to_life.0) {
        Some(TO_LIFE as u8)
    } else {
        None
    }
}

/// The same, where `padding` stands in the bytes that should be zero.
#[tactic(auto, unfolding(crate::specs::Reading::control_fault))]
pub fn control_fault(header: &ControlHeader, padding: u32) -> Option<u8>
    ensures { result ≡ control_fault header.now padding }
{
    let row = ControlRow::of(header.kind, header.status);
    if !Span::sessions().contains(u32::from(header.client.0)) {
        Some(CLIENT as u8)
    } else if !is_server(row.has_server, header.server) {
        Some(SERVER as u8)
    } else if !row.credits.contains(u32::from(header.credits)) {
        Some(CREDITS as u8)
    } else if header.status != ACCEPTED && header.status != row.refusal {
        Some(STATUS as u8)
    } else if !Span::lives().contains(header.from_life.0) {
        Some(FROM_LIFE as u8)
    } else if padding != 0 {
        Some(PADDING as u8)
    } else if !is_life(row.has_life, header.to_life) {
        Some(TO_LIFE as u8)
    } else {
        None
    }
}

/// Whether there is a server session, by its number, exactly where one is wanted.
fn is_server(wanted: bool, server: Option<SessionNo>) -> bool
    ensures { result ≡ is_server wanted server }
{
    match server {
        Some(session) => wanted && Span::sessions().contains(u32::from(session.0)),
        None => !wanted,
    }
}

/// Whether the receiver's life is there exactly where one is wanted.
fn is_life(wanted: bool, life: Option<Life>) -> bool
    ensures { result ≡ is_life wanted life }
{
    match life {
        Some(life) => wanted && Span::lives().contains(life.0),
        None => !wanted,
    }
}

/// The length that a datagram should have, in bytes; of a response the last part's.
#[inline(always)]
fn wanted(header: &MessageHeader) -> usize
    requires { header.now.kind ≡ Kind.Request → header.now.number < packet_count header.now.size }
    ensures { result ≡ wanted header.now.kind header.now.size header.now.number }
{
    let body = match header.kind {
        Kind::Request => part_len(header.size, u32::from(header.number)),
        Kind::Rfr | Kind::Cr => 0,
        Kind::Response => part_len(header.size, count(header.size) - 1),
    };
    HEAD_BYTES + body as usize
}

/// A response's part may be full, where its message fills one.
#[inline(always)]
fn is_full_part(header: &MessageHeader, len: usize) -> bool
    ensures { result ≡ is_full_part header.now.kind header.now.size len }
{
    match header.kind {
        Kind::Response => header.size >= PART_BYTES && len == HEAD_BYTES + PART_BYTES as usize,
        Kind::Request | Kind::Rfr | Kind::Cr => false,
    }
}
