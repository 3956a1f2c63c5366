//! What a node sends in session control: the answer to a control packet, and the requests of its
//! client sessions.
ghost use Rattle.std.specs.Prelude.{◌≡◌};
ghost use Rattle.rpc_laws.specs.ControlSteps.{own_request, request_by, retry_row};
ghost use Rattle.rpc_laws.specs.ControlTable.{connect_reply, control_reply, disconnect_as};

use packet_header::{ACCEPTED, ControlHeader, ControlKind, GONE, Life, NO_ROOM};
use rpc_base::{SessionNo, SessionState};
use rpc_laws::{Client, ControlRow, RetryRow, Way};

/// How often a session sends its own request before it gives up.
const MOST_SENDS: u64 = 9;

// A connect reply to this packet, from an endpoint of this life.
fn connect_reply(
    own: Life,
    head: &ControlHeader,
    server: Option<SessionNo>,
    credits: u16,
    status: u8,
) -> ControlHeader
    ensures { result ≡ connect_reply own head.now.from_life head.now.client server credits status }
{
    ControlHeader {
        kind: ControlKind::ConnectReply,
        client: head.client,
        server,
        credits,
        status,
        from_life: own,
        to_life: Some(head.from_life),
    }
}

// A packet of this kind about the session that the packet names.
fn disconnect_as(kind: ControlKind, own: Life, head: &ControlHeader, status: u8) -> ControlHeader
    ensures { result ≡ disconnect_as kind own head.now.from_life head.now.client head.now.server
        status }
{
    ControlHeader {
        kind,
        client: head.client,
        server: head.server,
        credits: 0,
        status,
        from_life: own,
        to_life: Some(head.from_life),
    }
}

/// The answer of an endpoint of this life to a control packet, by its row. `None` comes exactly
/// where there is none.
pub fn control_reply(own: Life, head: &ControlHeader, row: ControlRow) -> Option<ControlHeader>
    ensures { result ≡ control_reply own head.now row }
{
    match row {
        ControlRow::Confirms { server, credits } => {
            Some(connect_reply(own, head, Some(server), credits, ACCEPTED))
        }
        ControlRow::Declines => Some(connect_reply(own, head, None, head.credits, NO_ROOM)),
        ControlRow::Accepts { server } => {
            Some(connect_reply(own, head, Some(server), head.credits, ACCEPTED))
        }
        ControlRow::Ends => {
            Some(disconnect_as(ControlKind::DisconnectReply, own, head, ACCEPTED))
        }
        ControlRow::Misses => Some(disconnect_as(ControlKind::DisconnectReply, own, head, GONE)),
        ControlRow::Disowns => {
            Some(disconnect_as(ControlKind::DisconnectRequest, own, head, ACCEPTED))
        }
        ControlRow::Ignores
        | ControlRow::Starves
        | ControlRow::Connects { .. }
        | ControlRow::Fails
        | ControlRow::Closes => None,
    }
}

/// What the retry rule says at `clock` of a session's own request, which was sent so often, at
/// `sent_at` last; the clocks and the timeout are in microseconds.
pub fn retry_row(clock: u64, timeout: u64, sends: u64, sent_at: u64) -> RetryRow
    ensures { result ≡ retry_row clock timeout sends sent_at }
{
    if sends != 0 && clock.saturating_sub(sent_at) < timeout {
        return RetryRow::Rests;
    }
    if sends < MOST_SENDS {
        RetryRow::Asks
    } else {
        RetryRow::GivesUp
    }
}

fn request_by(own: Life, state: SessionState, way: &Way, credits: u16) -> Option<ControlHeader>
    ensures { result ≡ request_by own state way.now credits }
{
    match state {
        SessionState::Connecting => Some(ControlHeader {
            kind: ControlKind::ConnectRequest,
            client: way.number,
            server: None,
            credits,
            status: ACCEPTED,
            from_life: own,
            to_life: None,
        }),
        SessionState::Closing => Some(ControlHeader {
            kind: ControlKind::DisconnectRequest,
            client: way.number,
            server: Some(way.other),
            credits: 0,
            status: ACCEPTED,
            from_life: own,
            to_life: Some(way.life),
        }),
        SessionState::Unknown
        | SessionState::Connected
        | SessionState::Closed
        | SessionState::Failed
        | SessionState::Broken
        | SessionState::Spent => None,
    }
}

/// The own request of a client session of an endpoint of this life: to connect while it is
/// Connecting, to disconnect while it is Closing. `None` comes exactly where it has none.
pub fn own_request(own: Life, client: &Client) -> Option<ControlHeader>
    ensures { result ≡ own_request own client.now }
{
    request_by(own, client.state, &client.way, client.limit)
}
