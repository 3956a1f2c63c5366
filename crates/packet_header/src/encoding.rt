//! Writing a header.
ghost use Rattle.std.specs.Prelude.{◌≡◌, unwrap_or};
ghost use Rattle.packet_header.specs.Header.{AreBytes, ControlInRange, HasControlHead, HasHead};
ghost use Rattle.packet_header.specs.Header.{HasMessageHead, InRange, MessageInRange};
ghost use Rattle.packet_header.specs.Header.{control_code, head_bytes, kind_code};

use crate::layout::{
    FOUR_BYTES, MAGIC, NO_LIFE, NO_SESSION, ONE_BYTE, SECOND, SIX_BYTES, THREE_BYTES, TO_LIFE,
    TWO_BYTES,
};
use crate::life::Life;
use crate::packet::{ControlHeader, ControlKind, Kind, MessageHeader, Packet};
use byteorder::{BigEndian, ByteOrder};
use rpc_base::{HEAD_BYTES, SESSION_NUMBERS, SessionNo};

/// Writes the header of a packet whose fields are in the ranges of its kind. Each such packet has
/// one header.
pub fn encode(packet: &Packet, out: &mut [u8; HEAD_BYTES])
    requires { InRange packet.now }
    ensures head { HasHead packet.now out.new }
    ensures bytes { AreBytes out.new }
{
    write_head(packet, out);
    are_bytes(out);
}

// What always holds of bytes holds of these.
fn are_bytes(bytes: &[u8])
    ensures { AreBytes bytes.now }
{
    let _count = bytes.len();
}

fn write_head(packet: &Packet, out: &mut [u8; HEAD_BYTES])
    requires { InRange packet.now }
    ensures { HasHead packet.now out.new }
{
    match packet {
        Packet::Message(header) => write_message(header, out),
        Packet::Control(header) => write_control(header, out),
    }
}

// The fields that are written together make one number, each behind those before it.
fn write_message(header: &MessageHeader, out: &mut [u8; HEAD_BYTES])
    requires { MessageInRange header.now }
    ensures { HasMessageHead header.now out.new }
{
    let kind = u64::from(MAGIC) * ONE_BYTE + u64::from(kind_code(header.kind));
    let req_type = kind * ONE_BYTE + u64::from(header.req_type);
    let size = req_type * THREE_BYTES + u64::from(header.size);
    let session = size * TWO_BYTES + u64::from(header.session.0);
    let request = u64::from(header.number) * SIX_BYTES + header.request.get();
    write_numbers(out, session, request, header.to_life.0);
}

fn write_control(header: &ControlHeader, out: &mut [u8; HEAD_BYTES])
    requires { ControlInRange header.now }
    ensures { HasControlHead header.now out.new }
{
    let kind = u64::from(MAGIC) * ONE_BYTE + u64::from(control_code(header.kind));
    let client = kind * TWO_BYTES + u64::from(header.client.0);
    let server = client * TWO_BYTES + u64::from(server_number(header.server));
    let credits = server * TWO_BYTES + u64::from(header.credits);
    let from_life = u64::from(header.status) * FOUR_BYTES + u64::from(header.from_life.0);
    let padded = from_life * THREE_BYTES;
    write_numbers(out, credits, padded, life_number(header.to_life));
}

/// Writes a header that is given as numbers: its first eight bytes, the eight behind them, and the
/// last four.
fn write_numbers(out: &mut [u8; HEAD_BYTES], first: u64, second: u64, last: u32)
    ensures { out.new ≡ head_bytes first second last }
{
    BigEndian::write_u64(&mut out[..], first);
    BigEndian::write_u64(&mut out[SECOND..], second);
    BigEndian::write_u32(&mut out[TO_LIFE..], last);
}

/// What stands in the server's place.
fn server_number(server: Option<SessionNo>) -> u16
    ensures { result ≡ unwrap_or server SESSION_NUMBERS }
{
    match server {
        Some(session) => session.0,
        None => NO_SESSION,
    }
}

/// What stands in the place of the receiver's life.
fn life_number(life: Option<Life>) -> u32
    ensures { result ≡ unwrap_or life NO_LIFE }
{
    match life {
        Some(life) => life.0,
        None => NO_LIFE,
    }
}

/// The byte that stands for a kind.
fn kind_code(kind: Kind) -> u8
    ensures { result ≡ kind_code kind }
{
    match kind {
        Kind::Request => 0,
        Kind::Rfr => 1,
        Kind::Cr => 2,
        Kind::Response => 3,
    }
}

fn control_code(kind: ControlKind) -> u8
    ensures { result ≡ control_code kind }
{
    match kind {
        ControlKind::ConnectRequest => 4,
        ControlKind::ConnectReply => 5,
        ControlKind::DisconnectRequest => 6,
        ControlKind::DisconnectReply => 7,
    }
}
