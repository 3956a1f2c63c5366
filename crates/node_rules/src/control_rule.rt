//! "The control rule" of docs/PROTOCOL.md, over the lists of a node.
ghost use Rattle.std.specs.Prelude.{◌≡◌, ◌&&◌, Some, option_map};
ghost use Rattle.std.specs.List.{find, list_any, position};
ghost use Rattle.packet_header.specs.declared.packet.ControlKind.TheVariants.{ConnectRequest};
ghost use Rattle.rpc_laws.specs.ControlTable.{closed_row, confirm_row, connect_row, control_row};
ghost use Rattle.rpc_laws.specs.ControlTable.{end_row, is_end_of, is_for, is_older, is_stale};
ghost use Rattle.rpc_laws.specs.ControlTable.{joined_row, named_end, new_session_row, opened_row};
ghost use Rattle.rpc_laws.specs.ControlTable.{outdated, outdated_by, own_row, refused_row};
ghost use Rattle.rpc_laws.specs.ControlTable.{reply_row};
ghost use Rattle.rpc_laws.specs.Requests.{is_server};
ghost use Rattle.rpc_laws.specs.Sessions.{is_client, is_with};

use crate::noted::{has_no_room, servers_spent, shares};
use node_tables::{is_with, known_life, place_of_client};
use packet_header::{ControlHeader, ControlKind, Life};
use rpc_base::{Listed, Peer, SessionNo, SessionState};
use rpc_laws::{Client, ControlRow, Lists, Server};

// Whether a server session is the other end of the client session that a peer has in this life.
fn is_end_of(server: &Server, peer: Peer, client: SessionNo, life: Life) -> bool
    ensures { result ≡ is_end_of peer client life server.now }
{
    server.way.peer.0 == peer.0 && is_with(&server.way, client, life)
}

// Where the first such session stands.
fn place_of_end(
    servers: &Listed<Server>,
    peer: Peer,
    client: SessionNo,
    life: Life,
) -> Option<usize>
    ensures { result ≡ position (is_end_of peer client life) servers.now }
{
    servers
        .as_slice()
        .iter()
        .position(|server| is_end_of(server, peer, client, life))
}

// Whether the session of this number is there, and such an end.
fn has_named(
    servers: &Listed<Server>,
    peer: Peer,
    client: SessionNo,
    life: Life,
    number: SessionNo,
) -> bool
    ensures { result ≡ list_any (λ v. is_server number v && is_end_of peer client life v)
        servers.now }
{
    servers.as_slice().iter().any(|server| server.way.number.0 == number.0
        && is_end_of(server, peer, client, life))
}

// Whether a packet goes to this life.
fn is_for(life: Life, to: Option<Life>) -> bool
    ensures { result ≡ is_for life to }
{
    match to {
        None => false,
        Some(to) => to.0 == life.0,
    }
}

/// Whether the sender of a control packet of this peer has a lower life than one that is known.
pub fn is_stale(lists: &Lists, peer: Peer, head: &ControlHeader) -> bool
    ensures { result ≡ is_stale peer head.now lists.now }
{
    head.from_life.0 < known_life(&lists.known, peer).0
}

// Whether a server session is of an older life of a peer.
fn is_older(server: &Server, peer: Peer, life: Life) -> bool
    ensures { result ≡ is_older peer life server.now }
{
    server.way.peer.0 == peer.0 && server.way.life.0 < life.0
}

// Where the first such session stands.
fn place_of_older(servers: &Listed<Server>, peer: Peer, life: Life) -> Option<usize>
    ensures { result ≡ position (is_older peer life) servers.now }
{
    servers
        .as_slice()
        .iter()
        .position(|server| is_older(server, peer, life))
}

// That session.
fn older(servers: &Listed<Server>, peer: Peer, life: Life) -> Option<&Server>
    ensures { option_map (λ v. v.now) result ≡ find (is_older peer life) servers.now }
{
    let Some(place) = place_of_older(servers, peer, life) else {
        return None;
    };
    Some(servers.at(place))
}

// The session that a connect request outdates.
fn outdated_by<'a>(lists: &'a Lists, peer: Peer, head: &ControlHeader) -> Option<&'a Server>
    ensures { option_map (λ v. v.now) result ≡ outdated_by ConnectRequest peer head.now lists.now }
{
    if is_stale(lists, peer, head) {
        return None;
    }
    older(&lists.servers, peer, head.from_life)
}

/// The server session that a control packet of this peer outdates, that of the lowest number.
/// `None` comes exactly where there is none: it is stale, or no session is of an older life of the
/// peer, or it is no connect request.
pub fn outdated<'a>(lists: &'a Lists, peer: Peer, head: &ControlHeader) -> Option<&'a Server>
    ensures { option_map (λ v. v.now) result ≡ outdated peer head.now lists.now }
{
    match head.kind {
        ControlKind::ConnectRequest => outdated_by(lists, peer, head),
        ControlKind::DisconnectRequest => None,
        ControlKind::ConnectReply => None,
        ControlKind::DisconnectReply => None,
    }
}

// A connect request of a session that isn't there.
fn new_session_row(lists: &Lists, lacks: bool, head: &ControlHeader) -> ControlRow
    ensures { result ≡ new_session_row lacks head.now lists.now }
{
    let taken = shares(lists);
    if has_no_room(lists, taken, u64::from(head.credits)) || servers_spent(lists) {
        return ControlRow::Declines;
    }
    if lacks {
        return ControlRow::Starves;
    }
    ControlRow::Accepts {
        server: SessionNo(lists.server_numbers as u16),
    }
}

// A connect request that isn't stale.
fn confirm_row(lists: &Lists, lacks: bool, peer: Peer, head: &ControlHeader) -> ControlRow
    ensures { result ≡ confirm_row lacks head.now lists.now
        (find (is_end_of peer head.now.client head.now.from_life) lists.now.servers) }
{
    let Some(place) = place_of_end(&lists.servers, peer, head.client, head.from_life) else {
        return new_session_row(lists, lacks, head);
    };
    let server = lists.servers.at(place);
    ControlRow::Confirms {
        server: server.way.number,
        credits: server.credits,
    }
}

// A connect request.
fn connect_row(lists: &Lists, lacks: bool, peer: Peer, head: &ControlHeader) -> ControlRow
    ensures { result ≡ connect_row lacks peer head.now lists.now }
{
    if is_stale(lists, peer, head) {
        return ControlRow::Ignores;
    }
    confirm_row(lists, lacks, peer, head)
}

// But for a connect request, a packet for another life of the node has no effect.
fn own_row(row: ControlRow, lists: &Lists, head: &ControlHeader) -> ControlRow
    ensures { result ≡ own_row row head.now lists.now }
{
    if is_for(lists.life, head.to_life) {
        row
    } else {
        ControlRow::Ignores
    }
}

// A disconnect request that names this server session.
#[tactic(auto, using(crate::proofs::ControlLemmas::row_by_any))]
fn named_row(
    servers: &Listed<Server>,
    peer: Peer,
    client: SessionNo,
    life: Life,
    number: SessionNo,
) -> ControlRow
    ensures { result ≡ end_row (find (λ v. is_server number v && is_end_of peer client life v)
        servers.now) }
{
    if has_named(servers, peer, client, life, number) {
        ControlRow::Ends
    } else {
        ControlRow::Misses
    }
}

// A disconnect request.
fn disconnect_row(servers: &Listed<Server>, peer: Peer, head: &ControlHeader) -> ControlRow
    ensures { result ≡ end_row (named_end peer head.now.client head.now.from_life head.now.server
        servers.now) }
{
    match head.server {
        None => ControlRow::Misses,
        Some(number) => named_row(servers, peer, head.client, head.from_life, number),
    }
}

// A connect reply that names server session `server`, in this life of its node.
fn joined_row(client: &Client, server: SessionNo, life: Life, credits: u16) -> ControlRow
    ensures { result ≡ joined_row client.now.state (is_with server life client.now.way)
        client.now.limit server credits }
{
    match client.state {
        SessionState::Connecting if client.limit == credits => ControlRow::Connects { server },
        SessionState::Connecting => ControlRow::Ignores,
        SessionState::Connected | SessionState::Spent | SessionState::Closing
            if is_with(&client.way, server, life) => { ControlRow::Ignores }
        SessionState::Connected | SessionState::Spent | SessionState::Closing => {
            ControlRow::Disowns
        }
        SessionState::Unknown
        | SessionState::Closed
        | SessionState::Failed
        | SessionState::Broken => ControlRow::Disowns,
    }
}

// One that names none: the peer has no room.
fn refused_row(state: SessionState) -> ControlRow
    ensures { result ≡ refused_row state }
{
    match state {
        SessionState::Connecting => ControlRow::Fails,
        SessionState::Unknown
        | SessionState::Connected
        | SessionState::Closing
        | SessionState::Closed
        | SessionState::Failed
        | SessionState::Broken
        | SessionState::Spent => ControlRow::Ignores,
    }
}

fn reply_row(client: &Client, head: &ControlHeader) -> ControlRow
    ensures { result ≡ reply_row head.now.server head.now.from_life head.now.credits client.now }
{
    match head.server {
        None => refused_row(client.state),
        Some(server) => joined_row(client, server, head.from_life, head.credits),
    }
}

// A disconnect reply.
fn closed_row(client: &Client, server: Option<SessionNo>, life: Life) -> ControlRow
    ensures { result ≡ closed_row server life client.now }
{
    match (client.state, server) {
        (SessionState::Closing, Some(server)) if is_with(&client.way, server, life) => {
            ControlRow::Closes
        }
        _ => ControlRow::Ignores,
    }
}

fn opened_reply_row(client: &Client, peer: Peer, head: &ControlHeader) -> ControlRow
    ensures { result ≡ opened_row
        (reply_row head.now.server head.now.from_life head.now.credits) peer (Some client.now) }
{
    if client.way.peer.0 != peer.0 {
        return ControlRow::Ignores;
    }
    reply_row(client, head)
}

// A connect reply.
fn connect_reply_row(clients: &Listed<Client>, peer: Peer, head: &ControlHeader) -> ControlRow
    ensures { result ≡ opened_row
        (reply_row head.now.server head.now.from_life head.now.credits) peer
        (find (is_client head.now.client) clients.now) }
{
    let Some(place) = place_of_client(clients, head.client) else {
        return ControlRow::Ignores;
    };
    opened_reply_row(clients.at(place), peer, head)
}

fn opened_closed_row(client: &Client, peer: Peer, head: &ControlHeader) -> ControlRow
    ensures { result ≡ opened_row (closed_row head.now.server head.now.from_life) peer
        (Some client.now) }
{
    if client.way.peer.0 != peer.0 {
        return ControlRow::Ignores;
    }
    closed_row(client, head.server, head.from_life)
}

// A disconnect reply.
fn disconnect_reply_row(clients: &Listed<Client>, peer: Peer, head: &ControlHeader) -> ControlRow
    ensures { result ≡ opened_row (closed_row head.now.server head.now.from_life) peer
        (find (is_client head.now.client) clients.now) }
{
    let Some(place) = place_of_client(clients, head.client) else {
        return ControlRow::Ignores;
    };
    opened_closed_row(clients.at(place), peer, head)
}

// Where the session of this number stands, where it is such an end.
fn place_of_named(
    servers: &Listed<Server>,
    peer: Peer,
    client: SessionNo,
    life: Life,
    number: SessionNo,
) -> Option<usize>
    ensures { result ≡ position (λ v. is_server number v && is_end_of peer client life v)
        servers.now }
{
    servers.as_slice().iter().position(|server| server.way.number.0 == number.0
        && is_end_of(server, peer, client, life))
}

// That session.
fn named(
    servers: &Listed<Server>,
    peer: Peer,
    client: SessionNo,
    life: Life,
    number: SessionNo,
) -> Option<&Server>
    ensures { option_map (λ v. v.now) result
        ≡ find (λ v. is_server number v && is_end_of peer client life v) servers.now }
{
    let Some(place) = place_of_named(servers, peer, client, life, number) else {
        return None;
    };
    Some(servers.at(place))
}

/// The server session that a disconnect request of this peer names, where it is the other end of
/// the peer's. `None` comes exactly where there is none.
pub fn named_end<'a>(
    servers: &'a Listed<Server>,
    peer: Peer,
    head: &ControlHeader,
) -> Option<&'a Server>
    ensures { option_map (λ v. v.now) result
        ≡ named_end peer head.now.client head.now.from_life head.now.server servers.now }
{
    match head.server {
        None => None,
        Some(number) => named(servers, peer, head.client, head.from_life, number),
    }
}

/// What the control rule says of a control packet of this peer, once no session is outdated by it.
/// `lacks` tells whether memory for a server session is wanting.
pub fn control_row(lists: &Lists, lacks: bool, peer: Peer, head: &ControlHeader) -> ControlRow
    ensures { result ≡ control_row lacks peer head.now lists.now }
{
    match head.kind {
        ControlKind::ConnectRequest => connect_row(lists, lacks, peer, head),
        ControlKind::DisconnectRequest => {
            let row = disconnect_row(&lists.servers, peer, head);
            own_row(row, lists, head)
        }
        ControlKind::ConnectReply => {
            let row = connect_reply_row(&lists.clients, peer, head);
            own_row(row, lists, head)
        }
        ControlKind::DisconnectReply => {
            let row = disconnect_reply_row(&lists.clients, peer, head);
            own_row(row, lists, head)
        }
    }
}
