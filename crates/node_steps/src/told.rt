//! What the steps of a poll tell that hand packets to the link.

/// What came of the control packets of an inbox.
#[derive(Clone, Copy, Debug, PartialEq, Eq)]
pub struct Listening {
    /// How many were handled.
    pub heard: u32,
    /// How many packets were sent in answer.
    pub sent: u32,
    /// Whether the link failed.
    pub failed: bool,
}

/// What came of the requests of sessions.
#[derive(Clone, Copy, Debug, PartialEq, Eq)]
pub struct Asking {
    /// How many were sent.
    pub sent: u32,
    /// Whether the link failed.
    pub failed: bool,
}

/// What was sent.
#[derive(Clone, Copy, Debug, PartialEq, Eq)]
pub struct Sending {
    /// How many packets.
    pub sent: u32,
    /// Whether the link was busy, which left packets that may be sent.
    pub busy: bool,
}
