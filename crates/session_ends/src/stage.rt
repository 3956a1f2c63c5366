//! How far a client session has come.
ghost use Rattle.std.specs.Prelude.{◌≡◌, ◌<◌, ◌+◌, ◌^◌};
ghost use Rattle.session_ends.specs.Stages.{asked, is_broken, is_connected, sends_at, sent_at};

/// The stage of a client session. One that is opened and one that closes send requests of their
/// own: each counts those that it sent, and has the clock, in microseconds, of the last of them.
///
/// ```text
/// Connecting -> Connected -> Closing -> Closed
///      |            |
///      v            v
///    Failed       Broken
/// ```
#[derive(Clone, Copy, Debug)]
pub enum Stage {
    Connecting { sends: u64, sent_at: u64 },
    Connected,
    Closing { sends: u64, sent_at: u64 },
    Closed,
    /// No server took it.
    Failed,
    /// It lost its peer.
    Broken,
}

impl Stage {
    /// Whether packets of calls are sent and taken.
    pub fn is_connected(&self) -> bool
        ensures { result ≡ is_connected self.now }
    {
        match self {
            Stage::Connecting { .. } => false,
            Stage::Connected => true,
            Stage::Closing { .. } => false,
            Stage::Closed => false,
            Stage::Failed => false,
            Stage::Broken => false,
        }
    }

    /// Whether the session lost its peer.
    pub fn is_broken(&self) -> bool
        ensures { result ≡ is_broken self.now }
    {
        match self {
            Stage::Connecting { .. } => false,
            Stage::Connected => false,
            Stage::Closing { .. } => false,
            Stage::Closed => false,
            Stage::Failed => false,
            Stage::Broken => true,
        }
    }

    /// The stage once one more of the session's own requests was sent, at `now`, in microseconds.
    pub fn asked(&self, now: u64) -> Stage
        requires { sends_at self.now + 1 < 2 ^ 64 }
        ensures { result ≡ asked now self.now }
    {
        match *self {
            Stage::Connecting { sends, .. } => Stage::Connecting {
                sends: sends + 1,
                sent_at: now,
            },
            Stage::Closing { sends, .. } => Stage::Closing {
                sends: sends + 1,
                sent_at: now,
            },
            stage => stage,
        }
    }

    /// How many of its own requests the session sent, and the clock, in microseconds, of the last.
    pub fn sent(&self) -> (u64, u64)
        ensures { result ≡ (sends_at self.now, sent_at self.now) }
    {
        match *self {
            Stage::Connecting { sends, sent_at } => (sends, sent_at),
            Stage::Closing { sends, sent_at } => (sends, sent_at),
            Stage::Connected | Stage::Closed | Stage::Failed | Stage::Broken => (0, 0),
        }
    }
}
