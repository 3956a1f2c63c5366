//! What an application call, a delivery, or the world's working of a job notes.
ghost use Rattle.std.specs.Prelude.{◌≡◌, ◌<◌, ◌^◌, ◌↔◌, IsFalse, IsTrue, sum_by};
ghost use Rattle.rpc_base.specs.declared.fact.Who.TheVariants.{Node};
ghost use Rattle.std.specs.List.{list_any};
ghost use Rattle.rpc_laws.specs.Front.{is_control, is_message};
ghost use Rattle.rpc_laws.specs.Groups.{clients_spent, has_no_room, live_credits};
ghost use Rattle.rpc_laws.specs.Groups.{servers_spent, shares, told_state};
ghost use Rattle.rpc_laws.specs.Jobs.{is_job};
ghost use Rattle.rpc_laws.specs.Sessions.{is_connected, is_live};
ghost use Rattle.node_rules.specs.Noted.{IsNoted, are_credits, has_bytes, has_place};
ghost use Rattle.node_rules.specs.Noted.{is_call_answer, is_open, is_outer_answer, is_packet};
ghost use Rattle.node_rules.specs.Noted.{is_session_answer, is_state, is_taken, lacks_room};
ghost use Rattle.node_rules.specs.Noted.{pending_in, state_in, state_number};
ghost use Rattle.node_rules.specs.SingleFacts.{BeginsPolls, IsGroup};

use node_tables::{place_of_client, read_control, read_message};
use rpc_base::{
    Event, Fact, MOST_CALLS, MOST_CAPACITY, MOST_CREDITS, MOST_MESSAGE_BYTES, RequestNo,
    SESSION_NUMBERS, SessionNo, SessionState, Who,
};
use rpc_laws::{Client, Lists, Server};

/// So many control packets fit an inbox.
const INBOX_ROOM: usize = 64;

// Whether a session's credits count.
fn is_live(state: SessionState) -> bool
    ensures { result ≡ is_live state }
{
    match state {
        SessionState::Connecting
        | SessionState::Connected
        | SessionState::Spent
        | SessionState::Closing => true,
        SessionState::Unknown
        | SessionState::Closed
        | SessionState::Failed
        | SessionState::Broken => false,
    }
}

/// Whether packets of calls are taken.
pub fn is_connected(state: SessionState) -> bool
    ensures { result ≡ is_connected state }
{
    match state {
        SessionState::Connected | SessionState::Spent => true,
        SessionState::Unknown
        | SessionState::Connecting
        | SessionState::Closing
        | SessionState::Closed
        | SessionState::Failed
        | SessionState::Broken => false,
    }
}

// Whether calls are accepted.
fn is_open(state: SessionState) -> bool
    ensures { result ≡ is_open state }
{
    match state {
        SessionState::Connected => true,
        SessionState::Unknown
        | SessionState::Connecting
        | SessionState::Closing
        | SessionState::Closed
        | SessionState::Failed
        | SessionState::Broken
        | SessionState::Spent => false,
    }
}

// The place of a state in its type.
fn state_number(state: SessionState) -> u8
    ensures { result ≡ state_number state }
{
    match state {
        SessionState::Unknown => 0,
        SessionState::Connecting => 1,
        SessionState::Connected => 2,
        SessionState::Closing => 3,
        SessionState::Closed => 4,
        SessionState::Failed => 5,
        SessionState::Broken => 6,
        SessionState::Spent => 7,
    }
}

fn is_state(state: SessionState, other: SessionState) -> bool
    ensures { result ≡ is_state state other }
{
    state_number(state) == state_number(other)
}

// The state that is told of a session.
fn told_state(client: &Client) -> SessionState
    ensures { result ≡ told_state client.now.state client.now.asked }
{
    match client.state {
        SessionState::Connected if client.asked < MOST_CALLS => SessionState::Connected,
        SessionState::Connected => SessionState::Spent,
        state => state,
    }
}

// That of a client session of the node.
fn state_in(lists: &Lists, session: SessionNo) -> SessionState
    ensures { result ≡ state_in session lists.now }
{
    let Some(place) = place_of_client(&lists.clients, session) else {
        return SessionState::Unknown;
    };
    told_state(lists.clients.at(place))
}

// How many calls of a client session of the node are pending.
fn pending_in(lists: &Lists, session: SessionNo) -> u64
    ensures { result ≡ pending_in session lists.now }
{
    let Some(place) = place_of_client(&lists.clients, session) else {
        return 0;
    };
    lists.clients.at(place).calls.len() as u64
}

fn live_credits(client: &Client) -> u16
    ensures { result ≡ live_credits client.now }
{
    if is_live(client.state) {
        client.limit
    } else {
        0
    }
}

// The credits of the client sessions that are live. A list has fewer than 2^64 of them, and none
// has more than 16 bits hold.
fn client_shares(clients: &[Client]) -> u128
    ensures sum { result ≡ sum_by live_credits clients.now }
    ensures few { result < 2 ^ 80 }
{
    let mut credits = 0u128;
    for client in clients {
        credits += u128::from(live_credits(client));
    }
    credits
}

fn server_shares(servers: &[Server]) -> u128
    ensures sum { result ≡ sum_by (λ v. v.credits) servers.now }
    ensures few { result < 2 ^ 80 }
{
    let mut credits = 0u128;
    for server in servers {
        credits += u128::from(server.credits);
    }
    credits
}

/// The credits of the live sessions of a node.
pub fn shares(lists: &Lists) -> u128
    ensures { result ≡ shares lists.now }
{
    let own = client_shares(lists.clients.as_slice());
    let other = server_shares(lists.servers.as_slice());
    own + other
}

/// Whether so many credits more would exceed the ring of a node whose live sessions have `taken`.
pub fn has_no_room(lists: &Lists, taken: u128, credits: u64) -> bool
    requires { taken ≡ shares lists.now }
    ensures { result ≡ has_no_room credits lists.now }
{
    u128::from(lists.room) < taken.saturating_add(u128::from(credits))
}

fn clients_spent(lists: &Lists) -> bool
    ensures { result ≡ clients_spent lists.now }
{
    usize::from(SESSION_NUMBERS) <= lists.clients.len()
}

/// Whether all numbers of server sessions were used.
pub fn servers_spent(lists: &Lists) -> bool
    ensures { result ≡ servers_spent lists.now }
{
    u64::from(SESSION_NUMBERS) <= lists.server_numbers
}

fn are_credits(credits: u64) -> bool
    ensures { result ≡ are_credits credits }
{
    1 <= credits && credits <= u64::from(MOST_CREDITS)
}

// Whether a session of so many credits is made.
fn is_taken(lists: &Lists, spent: bool, credits: u16) -> bool
    ensures { result ≡ is_taken spent credits lists.now }
{
    let taken = shares(lists);
    let credits = u64::from(credits);
    are_credits(credits) && !spent && !has_no_room(lists, taken, credits)
}

// Whether it isn't, for want of room.
fn lacks_room(lists: &Lists, taken: u128, credits: u64) -> bool
    requires { taken ≡ shares lists.now }
    ensures { result ≡ lacks_room credits lists.now }
{
    are_credits(credits)
        && !(clients_spent(lists) && servers_spent(lists))
        && has_no_room(lists, taken, credits)
}

fn is_message(bytes: &[u8]) -> bool
    ensures { result ≡ is_message bytes.now }
{
    read_message(bytes).is_some()
}

fn is_control(bytes: &[u8]) -> bool
    ensures { result ≡ is_control bytes.now }
{
    read_control(bytes).is_some()
}

fn has_place(lists: &Lists, bytes: &[u8]) -> bool
    ensures { result ≡ has_place lists.now bytes.now }
{
    if is_message(bytes) {
        return lists.ring.len() < lists.room as usize;
    }
    is_control(bytes) && lists.inbox.len() < INBOX_ROOM
}

fn is_packet(bytes: &[u8]) -> bool
    ensures { result ≡ is_packet bytes.now }
{
    is_message(bytes) || is_control(bytes)
}

// Whether a job is out.
fn is_out(lists: &Lists, session: SessionNo, request: RequestNo) -> bool
    ensures { result ≡ list_any (is_job session request) lists.now.jobs.out }
{
    lists.jobs.out.as_slice().iter().any(|job| job.session.0 == session.0
        && job.request.get() == request.get())
}

// Whether the node answers a connect, or makes an end of a pair, by this event.
fn is_session_answer(lists: &Lists, event: &Event) -> bool
    ensures { result ≡ is_session_answer lists.now event.now }
{
    match event {
        Event::PairedClient {
            session,
            server,
            credits,
            ..
        } => {
            let taken = is_taken(lists, clients_spent(lists), *credits);
            let next = usize::from(session.0) == lists.clients.len();
            next && server.0 < SESSION_NUMBERS && taken
        }
        Event::PairedServer {
            session,
            client,
            credits,
            ..
        } => {
            let taken = is_taken(lists, servers_spent(lists), *credits);
            let next = u64::from(session.0) == lists.server_numbers;
            next && client.0 < SESSION_NUMBERS && taken
        }
        Event::Opened {
            session,
            credits,
            ..
        } => {
            let taken = is_taken(lists, clients_spent(lists), *credits);
            usize::from(session.0) == lists.clients.len() && taken
        }
        Event::NconnectNumbers => clients_spent(lists) || servers_spent(lists),
        Event::NconnectRing {
            shares: told,
            credits,
            ring,
        } => {
            let taken = shares(lists);
            let right = u128::from(*told) == taken && *ring == lists.room;
            right && lacks_room(lists, taken, u64::from(*credits))
        }
        _ => false,
    }
}

// Whether it answers a disconnect, a rate, or a call of so many bytes by this event.
fn is_call_answer(lists: &Lists, event: &Event, len: usize) -> bool
    ensures { result ≡ is_call_answer lists.now event.now len }
{
    match event {
        Event::Closing { session } => {
            is_connected(state_in(lists, *session)) && pending_in(lists, *session) == 0
        }
        Event::NcloseBusy { session, calls } => {
            is_connected(state_in(lists, *session))
                && *calls != 0
                && *calls == pending_in(lists, *session)
        }
        Event::NcloseState { session, state } => {
            let own = state_in(lists, *session);
            !is_connected(own) && is_state(*state, own)
        }
        Event::Rated { session, .. } => is_live(state_in(lists, *session)),
        Event::Nrate { session, state } => {
            let own = state_in(lists, *session);
            !is_live(own) && is_state(*state, own)
        }
        Event::Asked {
            call,
            session,
            room,
            ..
        } => {
            call.0 == lists.asked
                && len <= MOST_MESSAGE_BYTES as usize
                && *room <= MOST_CAPACITY
                && is_open(state_in(lists, *session))
        }
        Event::NcallTooLarge { len, .. } => MOST_MESSAGE_BYTES < *len && *len <= MOST_CAPACITY,
        Event::NcallState { session, state } => {
            let own = state_in(lists, *session);
            !is_open(own) && is_state(*state, own)
        }
        _ => false,
    }
}

// Whether it is the event of a delivery of these bytes, or the world's of a job.
fn is_outer_answer(lists: &Lists, event: &Event, bytes: &[u8]) -> bool
    ensures { result ≡ is_outer_answer lists.now event.now bytes.now }
{
    match event {
        Event::Arrived { .. } => has_place(lists, bytes),
        Event::Overflowed { .. } => is_packet(bytes) && !has_place(lists, bytes),
        Event::Bad { .. } => !is_packet(bytes),
        Event::Worked { session, request } => is_out(lists, *session, *request),
        Event::Missed { .. } => true,
        _ => false,
    }
}

// Whether such an event is noted with bytes.
fn has_bytes(event: &Event) -> bool
    ensures { result ≡ has_bytes event.now }
{
    match event {
        Event::Asked { .. } => true,
        Event::Arrived { .. } => true,
        Event::Overflowed { .. } => true,
        Event::Bad { .. } => true,
        _ => false,
    }
}

// Whether a fact is one of the node.
fn is_own(lists: &Lists, fact: &Fact) -> bool
    ensures { IsTrue result ↔ (fact.now.who ≡ Node lists.now.me) }
{
    match fact.who {
        Who::Node(node) => node.0 == lists.me.0,
        Who::Net => false,
    }
}

// Whether a fact is the node's answer to an application call, what it notes of a delivery, or the
// world's note of a job.
fn is_noted(lists: &Lists, fact: &Fact) -> bool
    ensures { IsTrue result ↔ IsNoted lists.now fact.now }
{
    let event = &fact.event;
    let first = fact.first.bytes();
    let is_answer = is_session_answer(lists, event)
        || is_call_answer(lists, event, first.len())
        || is_outer_answer(lists, event, first);
    let has_right_bytes = (has_bytes(event) || first.is_empty()) && fact.second.is_empty();
    is_own(lists, fact) && is_answer && has_right_bytes
}

/// Whether a fact is a group of its own at a node with these lists: its answer to an application
/// call, what it notes of a delivery, or the world's note of a job. Where it isn't, only a poll can
/// begin with it.
pub fn is_group(lists: &Lists, fact: &Fact) -> bool
    ensures some { IsTrue result → IsGroup lists.now fact.now }
    ensures only { IsFalse result → BeginsPolls lists.now fact.now }
{
    let noted = is_noted(lists, fact);
    noted
}
