//! What failed, in the words of a user.
use std::error::Error;
use std::fmt;
use std::io::ErrorKind;
use std::net::SocketAddr;

/// Why a call of a link failed.
#[derive(Clone, Copy, Debug, PartialEq, Eq)]
pub enum Trouble {
    /// The text of the link's own address is no numeric address with a port.
    NoOwnAddress,
    /// The text of a peer's address is none.
    NoPeerAddress,
    /// The system gave no socket at this address.
    NotBound { addr: SocketAddr, kind: ErrorKind },
    /// The system doesn't let the socket go on where it would wait.
    Waits(ErrorKind),
    /// There was no memory for the link's buffers.
    NoMemory,
    /// The peer of this address got no number: 256 others have one, or there was no memory.
    NoNumber(SocketAddr),
    /// A packet for a number that is no peer's, or of a link that isn't bound, or one too long.
    NoWay,
    /// The system took no packets.
    NotSent(ErrorKind),
    /// The system gave none.
    NotReceived(ErrorKind),
}

/// How an address is written.
const FORM: &str = "it is numeric, with a port, as 127.0.0.1:7000 or [::1]:7000";

/// The line that a user reads.
impl fmt::Display for Trouble {
    fn fmt<W: fmt::Write>(&self, f: &mut fmt::Formatter<W>) -> fmt::Result {
        match self {
            Trouble::NoOwnAddress => write!(f, "the address to listen at is none: {FORM}"),
            Trouble::NoPeerAddress => write!(f, "the address to call is none: {FORM}"),
            Trouble::NotBound { addr, kind } => write!(f, "cannot listen at {addr}: {kind}"),
            Trouble::Waits(kind) => write!(f, "the socket would wait: {kind}"),
            Trouble::NoMemory => f.write_str("there is no memory for the link"),
            Trouble::NoNumber(addr) => write!(f, "{addr} is one address too many"),
            Trouble::NoWay => f.write_str("a packet has no way to go"),
            Trouble::NotSent(kind) => write!(f, "cannot send: {kind}"),
            Trouble::NotReceived(kind) => write!(f, "cannot receive: {kind}"),
        }
    }
}

impl Error for Trouble {}
