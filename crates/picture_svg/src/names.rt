//! Names of states, of reasons and of kinds of packet.
use rpc_base::{DropReason, SessionState};

pub fn state_name(state: SessionState) -> &'static str {
    match state {
        SessionState::Unknown => "unknown",
        SessionState::Connecting => "connecting",
        SessionState::Connected => "connected",
        SessionState::Closing => "closing",
        SessionState::Closed => "closed",
        SessionState::Failed => "failed",
        SessionState::Broken => "broken",
        SessionState::Spent => "spent",
    }
}

/// Why a packet was dropped, in the word of its report.
pub fn reason_name(reason: DropReason) -> &'static str {
    match reason {
        DropReason::StaleLife => "stalelife",
        DropReason::NoSession => "nosession",
        DropReason::WrongPeer => "wrongpeer",
        DropReason::Old => "old",
        DropReason::NotFirst => "notfirst",
        DropReason::Working => "working",
        DropReason::Unserved => "unserved",
        DropReason::JobsFull => "jobsfull",
        DropReason::NoMemory => "nomemory",
        DropReason::Mismatch => "mismatch",
        DropReason::Ahead => "ahead",
        DropReason::Beyond => "beyond",
        DropReason::NoCall => "nocall",
        DropReason::Past => "past",
        DropReason::Queued => "queued",
    }
}

/// Where in a header its kind stands.
const KIND: usize = 1;

/// The kind of packet that a header tells: "Headers" of docs/PROTOCOL.md.
pub fn kind_name(head: &[u8]) -> &'static str {
    match head.get(KIND) {
        Some(0) => "Request",
        Some(1) => "RFR",
        Some(2) => "CR",
        Some(3) => "Response",
        Some(4) => "ConnectRequest",
        Some(5) => "ConnectReply",
        Some(6) => "DisconnectRequest",
        Some(7) => "DisconnectReply",
        _ => "datagram",
    }
}
