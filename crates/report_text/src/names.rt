//! The words of a report for states and reasons.
ghost use Rattle.std.specs.Prelude.{◌≡◌};
ghost use Rattle.report_text.specs.Names.{state_text, reason_text};

use rpc_base::{DropReason, SessionState};

/// The word for the state of a session.
pub fn state_word(state: SessionState) -> &'static str
    ensures { result.now ≡ state_text state }
{
    match state {
        SessionState::Unknown => "unknown",
        SessionState::Connecting => "connecting",
        SessionState::Connected => "connected",
        SessionState::Closing => "closing",
        SessionState::Closed => "closed",
        SessionState::Failed => "failed",
        SessionState::Broken => "broken",
        SessionState::Spent => "spent",
    }
}

/// The word for why a packet was dropped.
pub fn reason_word(reason: DropReason) -> &'static str
    ensures { result.now ≡ reason_text reason }
{
    match reason {
        DropReason::StaleLife => "stalelife",
        DropReason::NoSession => "nosession",
        DropReason::WrongPeer => "wrongpeer",
        DropReason::Old => "old",
        DropReason::NotFirst => "notfirst",
        DropReason::Working => "working",
        DropReason::Unserved => "unserved",
        DropReason::JobsFull => "jobsfull",
        DropReason::NoMemory => "nomemory",
        DropReason::Mismatch => "mismatch",
        DropReason::Ahead => "ahead",
        DropReason::Beyond => "beyond",
        DropReason::NoCall => "nocall",
        DropReason::Past => "past",
        DropReason::Queued => "queued",
    }
}
