//! States of a session, and reasons for which a data packet is dropped.

/// The state of a client session.
#[derive(Clone, Copy, Debug, PartialEq, Eq)]
pub enum SessionState {
    /// Its number was never used.
    Unknown,
    Connecting,
    Connected,
    Closing,
    Closed,
    Failed,
    /// It lost its peer.
    Broken,
    /// Connected, and 2^45 calls were asked on it.
    Spent,
}

/// Why a data packet was dropped.
#[derive(Clone, Copy, Debug, PartialEq, Eq)]
pub enum DropReason {
    /// It was sent to another life of the endpoint.
    StaleLife,
    /// There is no such live session.
    NoSession,
    /// The session has another peer.
    WrongPeer,
    /// A newer request began in its slot.
    Old,
    /// A new request has to begin with its first packet.
    NotFirst,
    /// A background job of the slot is at work.
    Working,
    /// The service doesn't serve the type.
    Unserved,
    /// As many background jobs as the limit are out.
    JobsFull,
    /// There is no memory for the buffers that the packet needs.
    NoMemory,
    /// Its kind, type, size or length isn't that of the message.
    Mismatch,
    /// It comes before its turn.
    Ahead,
    /// It asks for a part that isn't there.
    Beyond,
    /// No active call has its request number.
    NoCall,
    /// It was taken before.
    Past,
    /// The packet that it answers still waits to be sent.
    Queued,
}
