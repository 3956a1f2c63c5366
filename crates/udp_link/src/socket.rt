//! The calls of the system on a socket that never waits.
ghost use Rattle.std.specs.Prelude.{◌≤◌, length, IfOk};

use crate::address::Address;
use libc::nanosleep;
use libc::net::{_SS_SIZE, MSG_NOSIGNAL, POLLIN, connect, poll, recvfrom, sendto};
use libc::types::{pollfd, timespec};
use std::io::{self, Error};

/// The microseconds of a millisecond, the unit in which the system waits.
const MILLISECOND: u32 = 1_000;

/// The nanoseconds of a microsecond.
const NANOSECONDS: i64 = 1_000;

/// The microseconds of a nap, which no datagram ends.
const NAP: u32 = 100;

fn last_error() -> Error {
    Error::from_raw_os_error(os::errno())
}

/// From now on the socket hears this address alone, and the system keeps the way there. Where it
/// doesn't grant that all goes on as it was: no fault.
pub fn hear_only(fd: i32, address: &Address) {
    let _status = unsafe { connect(fd, &address.bytes, address.len) };
}

/// Sends one datagram.
pub fn send(fd: i32, datagram: &[u8], to: &Address) -> io::Result<()> {
    let sent = unsafe { sendto(fd, datagram, MSG_NOSIGNAL, &to.bytes, to.len) };
    if sent < 0 { Err(last_error()) } else { Ok(()) }
}

/// Receives one datagram, to the front of the room, and the address that it came from; the result
/// is its length. What doesn't fit is lost.
pub fn receive(fd: i32, room: &mut [u8], from: &mut Address) -> io::Result<usize>
    ensures { IfOk result (λ len. len ≤ length room.new) }
{
    let mut len = _SS_SIZE as u32;
    let got = unsafe { recvfrom(fd, room, 0, &mut from.bytes, &mut len) };
    match usize::try_from(got) {
        Ok(count) => {
            from.len = len.min(_SS_SIZE as u32);
            Ok(count)
        }
        Err(_) => Err(last_error()),
    }
}

// Tells whether a datagram is there, now or within so many milliseconds.
fn is_ready(fd: i32, millis: u32) -> bool {
    let mut asked = [pollfd {
        fd,
        events: POLLIN,
        revents: 0,
    }];
    poll(&mut asked, i32::try_from(millis).unwrap_or(i32::MAX)) != 0
}

// Sleeps for so many microseconds, whatever comes.
fn nap(micros: u32) {
    let asked = timespec {
        tv_sec: 0,
        tv_nsec: i64::from(micros) * NANOSECONDS,
    };
    let mut left = asked;
    let _status = nanosleep(&asked, &mut left);
}

/// Waits until a datagram may be there, or so many microseconds, and tells whether one may. The
/// system waits for a datagram by whole milliseconds: the rest goes by in naps, after each of which
/// it is looked, but for one that is shorter.
pub fn wait(fd: i32, micros: u32) -> bool {
    if is_ready(fd, micros / MILLISECOND) {
        return true;
    }
    let rest = micros % MILLISECOND;
    'naps: for _ in 0..rest / NAP {
        nap(NAP);
        if is_ready(fd, 0) {
            return true;
        }
    }
    if rest % NAP == 0 {
        return false;
    }
    nap(rest % NAP);
    true
}
