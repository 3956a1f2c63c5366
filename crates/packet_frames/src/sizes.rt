//! The byte that begins a frame, and the sizes of frames.

/// The first byte of a frame. No packet begins with it.
pub const FRAME_BYTE: u8 = 0xE0;

/// The bytes of a packet's length, which stands before it.
pub const LENGTH_BYTES: usize = 2;

/// The bytes of the largest packet: as many as a link gives out.
pub const MOST_PACKET_BYTES: usize = 2_048;

/// The least that may be set as the bytes of a frame: the largest packet of a call fits in it.
pub const LEAST_FRAME_BYTES: u32 = 1_088;

/// The bytes of a frame where nothing else is said: what an Ethernet packet takes, over IPv6.
pub const USUAL_FRAME_BYTES: u32 = 1_452;

/// The bytes of the largest frame: what a UDP datagram takes, over IPv4.
pub const MOST_FRAME_BYTES: u32 = 65_507;
