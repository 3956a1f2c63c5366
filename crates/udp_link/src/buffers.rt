//! The buffers that the system keeps for a socket.
use libc::net::{SO_RCVBUF, SO_SNDBUF, SOL_SOCKET, setsockopt};
use std::net::UdpSocket;
use std::os::fd::AsRawFd;

/// So many bytes are asked for in each direction: room for a few thousand datagrams. What a system
/// keeps by itself holds fewer than a ring does.
const WANTED: i32 = 4 * 1024 * 1024;

/// Asks for larger buffers. Where the system grants less, it stays at that: no fault.
pub fn enlarge(socket: &UdpSocket) {
    let fd = socket.as_raw_fd();
    let mut value = [0u8; 16];
    value[..4].copy_from_slice(&WANTED.to_ne_bytes());
    let (_received, _sent) = unsafe {
        (
            setsockopt(fd, SOL_SOCKET, SO_RCVBUF, &value, 4),
            setsockopt(fd, SOL_SOCKET, SO_SNDBUF, &value, 4),
        )
    };
}
