//! Addresses as the system takes and gives them.
ghost use Rattle.std.specs.Prelude.{◌+◌, ◌≤◌, length};

use libc::net::{_SS_SIZE, AF_INET, AF_INET6};
use std::net::SocketAddr;

/// So many bytes tell addresses apart: all of those of an address of IPv6.
const TOLD_BYTES: usize = 28;

/// The bytes of an address of IPv4, and of one of IPv6.
const V4_BYTES: u32 = 16;

const V6_BYTES: u32 = 28;

/// An address in the bytes of C's `sockaddr_in` or `sockaddr_in6`. The bytes behind it are zero.
#[derive(Clone, Copy)]
pub struct Address {
    pub bytes: [u8; _SS_SIZE],
    pub len: u32,
    ghost within: { len ≤ 128 },
}

// Writes a field.
fn put(bytes: &mut [u8; _SS_SIZE], at: usize, field: &[u8])
    requires { at + length field.now ≤ 128 }
{
    bytes[at..at + field.len()].copy_from_slice(field);
}

impl Address {
    /// No address: what a receiving writes over.
    pub fn none() -> Address {
        Address {
            bytes: [0; _SS_SIZE],
            len: 0,
        }
    }

    /// This address.
    pub fn of(addr: SocketAddr) -> Address {
        let mut bytes = [0; _SS_SIZE];
        put(&mut bytes, 2, &addr.port().to_be_bytes());
        match addr {
            SocketAddr::V4(addr) => {
                put(&mut bytes, 0, &(AF_INET as u16).to_ne_bytes());
                put(&mut bytes, 4, &addr.ip().octets());
                Address {
                    bytes,
                    len: V4_BYTES,
                }
            }
            SocketAddr::V6(addr) => {
                put(&mut bytes, 0, &(AF_INET6 as u16).to_ne_bytes());
                put(&mut bytes, 4, &addr.flowinfo().to_ne_bytes());
                put(&mut bytes, 8, &addr.ip().octets());
                put(&mut bytes, 24, &addr.scope_id().to_ne_bytes());
                Address {
                    bytes,
                    len: V6_BYTES,
                }
            }
        }
    }

    /// Its port.
    pub fn port(&self) -> u16 {
        u16::from_be_bytes([self.bytes[2], self.bytes[3]])
    }

    /// The bytes that tell it from others.
    pub fn told(&self) -> &[u8] {
        &self.bytes[..TOLD_BYTES]
    }

    // Eight of its bytes as one number.
    fn word(&self, at: usize) -> u64
        requires { at + 8 ≤ 128 }
    {
        let mut word = [0; 8];
        word.copy_from_slice(&self.bytes[at..at + 8]);
        u64::from_ne_bytes(word)
    }

    /// Whether the two are one. The port, which differs most, is looked at first.
    pub fn is(&self, other: &Address) -> bool {
        self.word(0) == other.word(0)
            && self.word(8) == other.word(8)
            && self.word(16) == other.word(16)
            && self.word(24) == other.word(24)
    }
}
