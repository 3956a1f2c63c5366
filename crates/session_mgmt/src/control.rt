//! "The control rule" of docs/PROTOCOL.md, over what a node has of the sessions that a control
//! packet names.
ghost use Rattle.std.specs.Prelude.{◌≡◌, Bool, None, Some};
ghost use Rattle.std.specs.List.{find};
ghost use Rattle.rpc_laws.specs.ControlTable.{closed_row, connect_reply, connect_row};
ghost use Rattle.rpc_laws.specs.ControlTable.{control_reply, control_row, disconnect_as};
ghost use Rattle.rpc_laws.specs.ControlTable.{joined_row, opened_row, over_row, refused_row};
ghost use Rattle.rpc_laws.specs.ControlTable.{reply_row};
ghost use Rattle.rpc_laws.specs.Sessions.{is_client};
ghost use Rattle.rpc_laws.specs.declared.tables.Lists.{Lists};
ghost use Rattle.session_mgmt.specs.Control.{HasCause, HasOwnCause, accepts, concerns, found_in};
ghost use Rattle.session_mgmt.specs.Control.{is_its, is_stale, names_it, opened_to, starved};
ghost use Rattle.session_mgmt.specs.Control.{starved_if};

use packet_header::{ACCEPTED, ControlHeader, ControlKind, GONE, Life, NO_ROOM};
use rpc_base::{Peer, SESSION_NUMBERS, SessionNo, SessionState};
use rpc_laws::ControlRow;

/// A live server session that is the other end of a client session.
#[derive(Clone, Copy, Debug, PartialEq, Eq)]
pub struct OtherEnd {
    pub number: SessionNo,
    /// In packets.
    pub credits: u16,
}

/// A client session, as a reply to its own request finds it.
#[derive(Clone, Copy, Debug, PartialEq, Eq)]
pub struct OwnEnd {
    /// To whom it was opened.
    pub peer: Peer,
    pub state: SessionState,
    /// In packets.
    pub credits: u16,
    /// The peer's number of it, 65,535 before it is connected.
    pub server: SessionNo,
    /// The life of the peer's endpoint, 0 before it is connected.
    pub life: Life,
}

/// What a node has of the sessions that a control packet of a peer names, and of lives.
#[derive(Clone, Copy, Debug, PartialEq, Eq)]
pub struct Found {
    /// Its live server session of the lowest number that is the other end of the peer's client
    /// session.
    pub end: Option<OtherEnd>,
    /// Whether the server session that the packet names is live, and such an end.
    pub is_named: bool,
    /// Its own client session of the number that the packet names.
    pub own: Option<OwnEnd>,
    /// Its own life.
    pub life: Life,
    /// The greatest life of the peer that it knows, 0 where it knows none.
    pub known: Life,
    /// How many numbers of server sessions were used.
    pub numbers: u64,
    /// The credits of its live sessions, in packets.
    pub shares: u32,
    /// The length of its receive ring, in packets.
    pub ring: u32,
}

/// Whether a connect request of so many credits is accepted where no session of its client is
/// there: there are a number and room for one. It knows nothing of memory.
pub fn accepts(credits: u16, found: &Found) -> bool
    ensures { result ≡ accepts credits found.now }
{
    u64::from(found.shares) + u64::from(credits) <= u64::from(found.ring)
        && found.numbers < u64::from(SESSION_NUMBERS)
}

/// Whether a packet's sender is of an older life than is known of the peer.
pub fn is_stale(head: &ControlHeader, found: &Found) -> bool
    ensures { result ≡ is_stale head.now found.now }
{
    head.from_life.0 < found.known.0
}

// Whether a packet concerns this life of the node: a connect request concerns each.
fn concerns(life: Life, head: &ControlHeader) -> bool
    ensures { result ≡ concerns life head.now.kind head.now.to_life }
{
    match (head.kind, head.to_life) {
        (ControlKind::ConnectRequest, _) => true,
        (_, Some(to)) => to.0 == life.0,
        (_, None) => false,
    }
}

// A connect request.
fn connect_row(peer: Peer, head: &ControlHeader, found: &Found) -> ControlRow
    requires { head.now.kind ≡ ControlKind.ConnectRequest }
    ensures row { (s : Lists) → found.now ≡ found_in peer head.now s
        → (lacks : Bool) → connect_row lacks peer head.now s ≡ starved_if lacks result }
    ensures cause { HasCause result head.now found.now }
{
    if is_stale(head, found) {
        return ControlRow::Ignores;
    }
    match found.end {
        Some(end) => ControlRow::Confirms {
            server: end.number,
            credits: end.credits,
        },
        None if !accepts(head.credits, found) => ControlRow::Declines,
        None => ControlRow::Accepts {
            server: SessionNo(found.numbers as u16),
        },
    }
}

// Whether a client session is connected with server session `server` in this life of its node.
fn is_its(own: &OwnEnd, server: SessionNo, life: Life) -> bool
    ensures { result ≡ is_its own.now server life }
{
    own.server.0 == server.0 && own.life.0 == life.0
}

// A connect reply from an endpoint of life `life`, which names server session `server`.
fn joined_row(own: &OwnEnd, server: SessionNo, life: Life, credits: u16) -> ControlRow
    ensures row { result ≡ joined_row own.now.state (is_its own.now server life) own.now.credits
        server credits }
    ensures unstarved { starved result ≡ result }
    ensures cause { HasOwnCause result own.now.state (Some server) }
{
    match own.state {
        SessionState::Connecting if own.credits == credits => ControlRow::Connects { server },
        SessionState::Connecting => ControlRow::Ignores,
        SessionState::Connected | SessionState::Spent | SessionState::Closing
            if is_its(own, server, life) => { ControlRow::Ignores }
        SessionState::Connected | SessionState::Spent | SessionState::Closing => {
            ControlRow::Disowns
        }
        SessionState::Unknown
        | SessionState::Closed
        | SessionState::Failed
        | SessionState::Broken => ControlRow::Disowns,
    }
}

// One that names none: the peer has no room.
fn refused_row(own: &OwnEnd) -> ControlRow
    ensures row { result ≡ refused_row own.now.state }
    ensures unstarved { starved result ≡ result }
    ensures cause { HasOwnCause result own.now.state None }
{
    match own.state {
        SessionState::Connecting => ControlRow::Fails,
        SessionState::Unknown
        | SessionState::Connected
        | SessionState::Closing
        | SessionState::Closed
        | SessionState::Failed
        | SessionState::Broken
        | SessionState::Spent => ControlRow::Ignores,
    }
}

// A disconnect reply from an endpoint of life `life`.
fn over_row(own: &OwnEnd, server: Option<SessionNo>, life: Life) -> ControlRow
    ensures row { result ≡ over_row own.now.state (names_it own.now server life) }
    ensures unstarved { starved result ≡ result }
    ensures cause { HasOwnCause result own.now.state server }
{
    match (own.state, server) {
        (SessionState::Closing, Some(server)) if is_its(own, server, life) => ControlRow::Closes,
        _ => ControlRow::Ignores,
    }
}

// The client session that a reply names, where it was opened to the sender.
fn opened(peer: Peer, found: &Found) -> Option<OwnEnd>
    ensures { result ≡ opened_to peer found.now.own }
{
    match found.own {
        Some(own) if own.peer.0 == peer.0 => Some(own),
        _ => None,
    }
}

// A connect reply to this life of the node.
fn reply_row(peer: Peer, head: &ControlHeader, found: &Found) -> ControlRow
    ensures row { (s : Lists) → found.now ≡ found_in peer head.now s → opened_row
        (reply_row head.now.server head.now.from_life head.now.credits) peer
        (find (is_client head.now.client) s.clients) ≡ result }
    ensures unstarved { starved result ≡ result }
    ensures cause { HasCause result head.now found.now }
{
    match (opened(peer, found), head.server) {
        (Some(own), Some(server)) => joined_row(&own, server, head.from_life, head.credits),
        (Some(own), None) => refused_row(&own),
        (None, _) => ControlRow::Ignores,
    }
}

// A disconnect reply to it.
fn closed_row(peer: Peer, head: &ControlHeader, found: &Found) -> ControlRow
    ensures row { (s : Lists) → found.now ≡ found_in peer head.now s
        → opened_row (closed_row head.now.server head.now.from_life) peer
        (find (is_client head.now.client) s.clients) ≡ result }
    ensures unstarved { starved result ≡ result }
    ensures cause { HasCause result head.now found.now }
{
    match opened(peer, found) {
        Some(own) => over_row(&own, head.server, head.from_life),
        None => ControlRow::Ignores,
    }
}

/// The row of the control rule for a control packet of this peer. It knows nothing of memory, and
/// never answers `Starves`, which stands in place of `Accepts` where there is none for the session.
/// What a connect request outdates is taken to have ended before.
pub fn control_row(peer: Peer, head: &ControlHeader, found: &Found) -> ControlRow
    ensures row { (s : Lists) → found.now ≡ found_in peer head.now s
        → (lacks : Bool) → control_row lacks peer head.now s ≡ starved_if lacks result }
    ensures cause { HasCause result head.now found.now }
{
    if !concerns(found.life, head) {
        return ControlRow::Ignores;
    }
    match head.kind {
        ControlKind::ConnectRequest => connect_row(peer, head, found),
        ControlKind::DisconnectRequest if found.is_named => ControlRow::Ends,
        ControlKind::DisconnectRequest => ControlRow::Misses,
        ControlKind::ConnectReply => reply_row(peer, head, found),
        ControlKind::DisconnectReply => closed_row(peer, head, found),
    }
}

// A connect reply of an endpoint of life `own` to the life of a packet's sender, which names the
// same client session.
fn connect_reply(
    own: Life,
    head: &ControlHeader,
    server: Option<SessionNo>,
    credits: u16,
    status: u8,
) -> ControlHeader
    ensures { result ≡ connect_reply own head.now.from_life head.now.client server credits
        status }
{
    ControlHeader {
        kind: ControlKind::ConnectReply,
        client: head.client,
        server,
        credits,
        status,
        from_life: own,
        to_life: Some(head.from_life),
    }
}

// A packet of this kind to the life of a packet's sender, which names the same sessions.
fn disconnect_as(kind: ControlKind, own: Life, head: &ControlHeader, status: u8) -> ControlHeader
    ensures { result ≡ disconnect_as kind own head.now.from_life head.now.client
        head.now.server status }
{
    ControlHeader {
        kind,
        client: head.client,
        server: head.server,
        credits: 0,
        status,
        from_life: own,
        to_life: Some(head.from_life),
    }
}

/// The packet that answers a control packet handled by this row, from an endpoint of life `own` to
/// its sender and the sender's life. `None` comes exactly where none does.
pub fn control_reply(own: Life, head: &ControlHeader, row: &ControlRow) -> Option<ControlHeader>
    ensures { result ≡ control_reply own head.now row.now }
{
    match *row {
        ControlRow::Ignores => None,
        ControlRow::Confirms { server, credits } => {
            Some(connect_reply(own, head, Some(server), credits, ACCEPTED))
        }
        ControlRow::Declines => Some(connect_reply(own, head, None, head.credits, NO_ROOM)),
        ControlRow::Starves => None,
        ControlRow::Accepts { server } => {
            Some(connect_reply(own, head, Some(server), head.credits, ACCEPTED))
        }
        ControlRow::Ends => {
            Some(disconnect_as(ControlKind::DisconnectReply, own, head, ACCEPTED))
        }
        ControlRow::Misses => Some(disconnect_as(ControlKind::DisconnectReply, own, head, GONE)),
        ControlRow::Connects { .. } => None,
        ControlRow::Disowns => {
            Some(disconnect_as(ControlKind::DisconnectRequest, own, head, ACCEPTED))
        }
        ControlRow::Fails => None,
        ControlRow::Closes => None,
    }
}
