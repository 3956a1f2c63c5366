//! A client session's own request: to connect while it is Connecting, and to disconnect while it is
//! Closing.
ghost use Rattle.std.specs.Prelude.{◌≡◌};
ghost use Rattle.rpc_laws.specs.ControlSteps.{request_by, retry_row};

use packet_header::{ACCEPTED, ControlHeader, ControlKind, Life};
use rpc_base::SessionState;
use rpc_laws::{RetryRow, Way};

/// A session sends its own request so many times.
const MOST_SENDS: u64 = 9;

/// The own request of a client session of an endpoint of life `own`, in this state, with this way
/// and these credits. `None` comes exactly where it is neither Connecting nor Closing.
pub fn own_request(own: Life, state: SessionState, way: &Way, credits: u16) -> Option<ControlHeader>
    ensures { result ≡ request_by own state way.now credits }
{
    match state {
        SessionState::Connecting => Some(ControlHeader {
            kind: ControlKind::ConnectRequest,
            client: way.number,
            server: None,
            credits,
            status: ACCEPTED,
            from_life: own,
            to_life: None,
        }),
        SessionState::Closing => Some(ControlHeader {
            kind: ControlKind::DisconnectRequest,
            client: way.number,
            server: Some(way.other),
            credits: 0,
            status: ACCEPTED,
            from_life: own,
            to_life: Some(way.life),
        }),
        SessionState::Unknown
        | SessionState::Connected
        | SessionState::Closed
        | SessionState::Failed
        | SessionState::Broken
        | SessionState::Spent => None,
    }
}

/// What a session does at `now` about its own request, which it sent so many times, the last at
/// `sent_at`; the clocks and the timeout are in microseconds. It is sent at once, again each time
/// that the timeout has passed, and nine times in all; at the next timeout the session gives up.
pub fn retry_row(now: u64, timeout: u64, sends: u64, sent_at: u64) -> RetryRow
    ensures { result ≡ retry_row now timeout sends sent_at }
{
    if sends != 0 && now.saturating_sub(sent_at) < timeout {
        return RetryRow::Rests;
    }
    if sends < MOST_SENDS {
        RetryRow::Asks
    } else {
        RetryRow::GivesUp
    }
}
