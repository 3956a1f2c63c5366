//! What an error of the socket means. Over UDP a datagram may be lost, and some errors tell no more
//! than that: no fault of the link.
use std::io::{self, Error, ErrorKind};

/// The system's number for a datagram that is too long for its way (EMSGSIZE).
const TOO_LONG: i32 = 90;

/// The system's number for want of room for a datagram (ENOBUFS).
const NO_ROOM: i32 = 105;

/// Whether an error is the fate of a datagram that was sent before: nobody listened there, or no
/// way led there.
pub fn is_lost(kind: ErrorKind) -> bool {
    matches!(
        kind,
        ErrorKind::ConnectionRefused
            | ErrorKind::ConnectionReset
            | ErrorKind::HostUnreachable
            | ErrorKind::NetworkUnreachable
            | ErrorKind::NetworkDown
    )
}

/// Whether an error of a sending speaks of that datagram and its address alone: it goes nowhere, as
/// to port 0 or past a firewall, or there was no room for it. The next one may well go.
pub fn is_of_this_one(error: &Error) -> bool {
    let speaks = matches!(
        error.kind(),
        ErrorKind::InvalidInput
            | ErrorKind::PermissionDenied
            | ErrorKind::AddrNotAvailable
            | ErrorKind::OutOfMemory
    );
    speaks || is_lost(error.kind()) || matches!(error.raw_os_error(), Some(TOO_LONG | NO_ROOM))
}

/// Whether the socket may do now, or soon, what it didn't.
pub fn is_passing(kind: ErrorKind) -> bool {
    matches!(kind, ErrorKind::WouldBlock | ErrorKind::Interrupted)
}

/// What became of packets that were handed to the system.
#[derive(Clone, Copy, Debug, PartialEq, Eq)]
pub enum Fate {
    /// They are on their way, or lost there.
    Gone,
    /// The system could not take them now.
    Busy,
    /// The link failed, with this error of the system.
    Fault(ErrorKind),
}

impl Fate {
    /// What became of them, by the system's answer.
    pub fn of(sent: io::Result<()>) -> Fate {
        match sent {
            Ok(()) => Fate::Gone,
            Err(error) if is_of_this_one(&error) => Fate::Gone,
            Err(error) if is_passing(error.kind()) => Fate::Busy,
            Err(error) => Fate::Fault(error.kind()),
        }
    }
}
