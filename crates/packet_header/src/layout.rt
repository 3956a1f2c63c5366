//! Where the fields of a header stand. Numbers of more than one byte have their highest byte first.

/// The first byte of every header.
pub const MAGIC: u8 = 0xE2;

/// What stands in the server's place of a control header where there is no server session.
pub const NO_SESSION: u16 = 0xFFFF;

/// The offset of the kind, in every header.
pub const KIND: usize = 1;

/// The offset of the receiver's life, in every header; the life has four bytes.
pub const TO_LIFE: usize = 16;

/// The offset of the second eight bytes of a header, which are written as one number.
pub const SECOND: usize = 8;

// How many numbers so many bytes hold.
pub const ONE_BYTE: u64 = 1 << 8;

pub const TWO_BYTES: u64 = 1 << 16;

pub const THREE_BYTES: u64 = 1 << 24;

pub const FOUR_BYTES: u64 = 1 << 32;

pub const SIX_BYTES: u64 = 1 << 48;

/// What stands in the place of the receiver's life of a control header where it isn't known. It is
/// nobody's life.
pub const NO_LIFE: u32 = 0;

// The offsets of a message header's fields: the type has one byte, the size three, the session and
// the number two each, the request six.
pub const TYPE: usize = 2;

pub const SIZE: usize = 3;

pub const SESSION: usize = 6;

pub const NUMBER: usize = 8;

pub const REQUEST: usize = 10;

/// The offset of the four low bytes of the request's number.
pub const REQUEST_LOW: usize = 12;

// The offsets of a control header's fields: the two sessions and the credits have two bytes each,
// the status one, the sender's life four. The rest before the receiver's life is zero.
pub const CLIENT: usize = 2;

pub const SERVER: usize = 4;

pub const CREDITS: usize = 6;

pub const STATUS: usize = 8;

pub const FROM_LIFE: usize = 9;

pub const PADDING: usize = 13;

/// How many zero bytes a control header has.
pub const PADDING_BYTES: usize = 3;
