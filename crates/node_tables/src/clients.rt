//! The client sessions, as events change them.
ghost use Rattle.std.specs.Prelude.{◌≡◌, ◌++◌, ◌∷◌, [], Some, IfOk, OnOk};
ghost use Rattle.std.specs.List.{position};
ghost use Rattle.memory_count.specs.Faults.{HasCause};
ghost use Rattle.rpc_base.specs.Tables.{at_first};
ghost use Rattle.rpc_laws.specs.Sessions.{asks, begins, breaks, client_end, clients_told};
ghost use Rattle.rpc_laws.specs.Sessions.{comes_to, connects, ends, has_call};
ghost use Rattle.rpc_laws.specs.Sessions.{is_client, is_request_of, is_with, no_turns, opened_end};
ghost use Rattle.rpc_laws.specs.Sessions.{posts, requests, rolls, sends, takes, turned};
ghost use Rattle.node_tables.specs.Changed.{new_client};

use crate::calls;
use crate::counting::{one_more, plus};
use memory_count::{Memory, NoMemory};
use packet_header::{ControlHeader, ControlKind, Life, MessageHeader};
use rpc_base::{CallNo, Listed, Peer, RequestNo, SESSION_NUMBERS, SessionNo, SessionState};
use rpc_laws::{Asking, Calls, Client, Way};

/// The slots of a session.
const SLOTS: usize = 8;

/// The life of a server that isn't known yet.
const NOBODYS_LIFE: u32 = 0;

// Eight slots in which no request began.
fn no_turns(memory: &mut Memory) -> Result<Listed<u64>, NoMemory>
    ensures turns { IfOk result (λ turns. turns ≡ no_turns) }
    ensures cause { HasCause memory.old memory.new result }
{
    let turns = memory.copied(&[0; SLOTS])?;
    Ok(Listed::from(turns))
}

// A session in this state, all whose credits are free.
fn new_client(
    memory: &mut Memory,
    way: Way,
    state: SessionState,
    credits: u16,
) -> Result<Client, NoMemory>
    ensures client { IfOk result (λ x. x ≡ new_client way state credits) }
    ensures cause { HasCause memory.old memory.new result }
{
    let turns = no_turns(memory)?;
    Ok(Client {
        way,
        state,
        limit: credits,
        free: u64::from(credits),
        sends: 0,
        sent_at: 0,
        asked: 0,
        turns,
        calls: Calls::new(memory.alloc()),
    })
}

/// A client end more, which was made by pairing.
pub fn pair(
    memory: &mut Memory,
    clients: &mut Listed<Client>,
    number: SessionNo,
    peer: Peer,
    other: SessionNo,
    credits: u16,
    life: u32,
) -> Result<(), NoMemory>
    ensures clients { OnOk result (clients.new
        ≡ clients.old ++ client_end number peer other credits life ∷ []) }
    ensures cause { HasCause memory.old memory.new result }
{
    let way = Way {
        number,
        peer,
        other,
        life: Life(life),
    };
    let client = new_client(memory, way, SessionState::Connected, credits)?;
    memory.of(clients.push(client))
}

/// A session more, which was opened and isn't connected yet.
pub fn open(
    memory: &mut Memory,
    clients: &mut Listed<Client>,
    number: SessionNo,
    peer: Peer,
    credits: u16,
) -> Result<(), NoMemory>
    ensures clients { OnOk result
        (clients.new ≡ clients.old ++ opened_end number peer credits ∷ []) }
    ensures cause { HasCause memory.old memory.new result }
{
    let way = Way {
        number,
        peer,
        other: SessionNo(SESSION_NUMBERS),
        life: Life(NOBODYS_LIFE),
    };
    let client = new_client(memory, way, SessionState::Connecting, credits)?;
    memory.of(clients.push(client))
}

/// Where a session stands.
pub fn place_of(clients: &Listed<Client>, session: SessionNo) -> Option<usize>
    ensures { result ≡ position (is_client session) clients.now }
{
    clients
        .as_slice()
        .iter()
        .position(|client| client.way.number.0 == session.0)
}

// Whether a session has this call.
fn has_call(client: &Client, number: CallNo) -> bool
    ensures { result ≡ has_call number client.now }
{
    client.calls.has(number)
}

// Where the session of a call stands.
fn place_of_call(clients: &Listed<Client>, number: CallNo) -> Option<usize>
    ensures { result ≡ position (has_call number) clients.now }
{
    clients
        .as_slice()
        .iter()
        .position(|client| has_call(client, number))
}

fn come_client(client: &mut Client, state: SessionState)
    ensures { client.new ≡ comes_to state client.old }
{
    client.state = state;
    client.sends = 0;
    client.sent_at = 0;
}

/// A session comes to another state.
pub fn come(clients: &mut Listed<Client>, session: SessionNo, state: SessionState)
    ensures { clients.new ≡ at_first (is_client session) (comes_to state) clients.old }
{
    let Some(place) = place_of(clients, session) else {
        return;
    };
    come_client(clients.at_mut(place), state);
}

fn connect_client(client: &mut Client, server: SessionNo, life: Life)
    ensures { client.new ≡ connects server life client.old }
{
    come_client(client, SessionState::Connected);
    client.way.other = server;
    client.way.life = life;
}

/// A session is connected with this session of its server, in that life of it.
pub fn connect(clients: &mut Listed<Client>, session: SessionNo, server: SessionNo, life: Life)
    ensures { clients.new ≡ at_first (is_client session) (connects server life) clients.old }
{
    let Some(place) = place_of(clients, session) else {
        return;
    };
    connect_client(clients.at_mut(place), server, life);
}

/// Whether the other end of a way is this session, in this life of its endpoint.
pub fn is_with(way: &Way, session: SessionNo, life: Life) -> bool
    ensures { result ≡ is_with session life way.now }
{
    way.other.0 == session.0 && way.life.0 == life.0
}

// Whether a control packet is the session's own request.
fn is_request_of(client: &Client, head: &ControlHeader) -> bool
    ensures { result ≡ is_request_of head.now.kind head.now.server head.now.to_life
        client.now.state client.now.way }
{
    match (head.kind, head.server, head.to_life, client.state) {
        (ControlKind::ConnectRequest, _, _, SessionState::Connecting) => true,
        (ControlKind::DisconnectRequest, Some(server), Some(life), SessionState::Closing) => {
            is_with(&client.way, server, life)
        }
        _ => false,
    }
}

fn tell_client(
    memory: &mut Memory,
    client: &mut Client,
    clock: u64,
    head: &ControlHeader,
) -> Result<(), NoMemory>
    ensures client { OnOk result (client.new ≡ requests clock head.now client.old) }
    ensures cause { HasCause memory.old memory.new result }
{
    if is_request_of(client, head) {
        client.sends = one_more(memory, client.sends)?;
        client.sent_at = clock;
    }
    Ok(())
}

/// A control packet with this header was sent at this clock.
pub fn tell(
    memory: &mut Memory,
    clients: &mut Listed<Client>,
    clock: u64,
    head: &ControlHeader,
) -> Result<(), NoMemory>
    ensures clients { OnOk result (clients.new ≡ clients_told clock (Some head.now) clients.old) }
    ensures cause { HasCause memory.old memory.new result }
{
    let Some(place) = place_of(clients, head.client) else {
        return Ok(());
    };
    tell_client(memory, clients.at_mut(place), clock, head)?;
    Ok(())
}

fn ask_client(memory: &mut Memory, client: &mut Client, what: Asking) -> Result<(), NoMemory>
    ensures client { OnOk result (client.new ≡ asks what client.old) }
    ensures cause { HasCause memory.old memory.new result }
{
    client.asked = one_more(memory, client.asked)?;
    client.calls.ask(memory, what)?;
    Ok(())
}

/// A call was accepted on a session.
pub fn ask(
    memory: &mut Memory,
    clients: &mut Listed<Client>,
    session: SessionNo,
    what: Asking,
) -> Result<(), NoMemory>
    ensures clients { OnOk result
        (clients.new ≡ at_first (is_client session) (asks what) clients.old) }
    ensures cause { HasCause memory.old memory.new result }
{
    let Some(place) = place_of(clients, session) else {
        return Ok(());
    };
    ask_client(memory, clients.at_mut(place), what)?;
    Ok(())
}

// One request more began in a slot.
fn turn(memory: &mut Memory, turns: &mut Listed<u64>, slot: usize) -> Result<(), NoMemory>
    ensures turns { OnOk result (turns.new ≡ turned slot turns.old) }
    ensures cause { HasCause memory.old memory.new result }
{
    if slot < turns.len() {
        let turn = one_more(memory, *turns.at(slot))?;
        turns.set(slot, turn);
    }
    Ok(())
}

fn begin_client(
    memory: &mut Memory,
    client: &mut Client,
    number: CallNo,
    request: RequestNo,
) -> Result<(), NoMemory>
    ensures client { OnOk result (client.new ≡ begins number request client.old) }
    ensures cause { HasCause memory.old memory.new result }
{
    turn(memory, &mut client.turns, usize::from(request.slot()))?;
    calls::begin(memory, &mut client.calls, number, request)?;
    Ok(())
}

/// A call begins as this request.
pub fn begin(
    memory: &mut Memory,
    clients: &mut Listed<Client>,
    number: CallNo,
    request: RequestNo,
) -> Result<(), NoMemory>
    ensures clients { OnOk result (clients.new
        ≡ at_first (has_call number) (begins number request) clients.old) }
    ensures cause { HasCause memory.old memory.new result }
{
    let Some(place) = place_of_call(clients, number) else {
        return Ok(());
    };
    begin_client(memory, clients.at_mut(place), number, request)?;
    Ok(())
}

// It took a credit of its session.
fn post_client(client: &mut Client, request: RequestNo, number: u16)
    ensures { client.new ≡ posts request number client.old }
{
    client.free = client.free.saturating_sub(1);
    calls::post(&mut client.calls, request, number);
}

/// Packet `number` of a request of a session was posted.
pub fn post(clients: &mut Listed<Client>, session: SessionNo, request: RequestNo, number: u16)
    ensures { clients.new ≡ at_first (is_client session) (posts request number) clients.old }
{
    let Some(place) = place_of(clients, session) else {
        return;
    };
    post_client(clients.at_mut(place), request, number);
}

fn send_client(client: &mut Client, clock: u64, request: RequestNo, number: u16)
    ensures { client.new ≡ sends clock request number client.old }
{
    calls::send(&mut client.calls, clock, request, number);
}

/// Packet `number` of a request of a session was sent at this clock.
pub fn send(
    clients: &mut Listed<Client>,
    clock: u64,
    session: SessionNo,
    request: RequestNo,
    number: u16,
)
    ensures { clients.new ≡ at_first (is_client session) (sends clock request number)
        clients.old }
{
    let Some(place) = place_of(clients, session) else {
        return;
    };
    send_client(clients.at_mut(place), clock, request, number);
}

// It gave a credit back.
fn take_client(
    memory: &mut Memory,
    client: &mut Client,
    clock: u64,
    request: RequestNo,
    head: &Option<MessageHeader>,
    body: &[u8],
) -> Result<(), NoMemory>
    ensures client { OnOk result (client.new
        ≡ takes clock request head.now body.now client.old) }
    ensures cause { HasCause memory.old memory.new result }
{
    client.free = one_more(memory, client.free)?;
    calls::take(memory, &mut client.calls, clock, request, head, body)?;
    Ok(())
}

/// A reply with this header and body to a request of a session was taken at this clock.
pub fn take(
    memory: &mut Memory,
    clients: &mut Listed<Client>,
    clock: u64,
    session: SessionNo,
    request: RequestNo,
    head: &Option<MessageHeader>,
    body: &[u8],
) -> Result<(), NoMemory>
    ensures clients { OnOk result (clients.new
        ≡ at_first (is_client session) (takes clock request head.now body.now)
        clients.old) }
    ensures cause { HasCause memory.old memory.new result }
{
    let Some(place) = place_of(clients, session) else {
        return Ok(());
    };
    take_client(memory, clients.at_mut(place), clock, request, head, body)?;
    Ok(())
}

// The credits of the packets that were posted and not answered come back.
fn roll_client(
    memory: &mut Memory,
    client: &mut Client,
    number: CallNo,
    posted: u16,
    got: u16,
) -> Result<(), NoMemory>
    ensures client { OnOk result (client.new ≡ rolls number posted got client.old) }
    ensures cause { HasCause memory.old memory.new result }
{
    let credits = u64::from(posted.saturating_sub(got));
    client.free = plus(memory, client.free, credits)?;
    calls::roll(memory, &mut client.calls, number, got)?;
    Ok(())
}

/// A call was rolled back.
pub fn roll(
    memory: &mut Memory,
    clients: &mut Listed<Client>,
    number: CallNo,
    posted: u16,
    got: u16,
) -> Result<(), NoMemory>
    ensures clients { OnOk result (clients.new
        ≡ at_first (has_call number) (rolls number posted got) clients.old) }
    ensures cause { HasCause memory.old memory.new result }
{
    let Some(place) = place_of_call(clients, number) else {
        return Ok(());
    };
    roll_client(memory, clients.at_mut(place), number, posted, got)?;
    Ok(())
}

fn break_client(client: &mut Client)
    ensures { client.new ≡ breaks client.old }
{
    client.state = SessionState::Broken;
    client.free = 0;
}

/// A session lost its peer.
pub fn lose(clients: &mut Listed<Client>, session: SessionNo)
    ensures { clients.new ≡ at_first (is_client session) breaks clients.old }
{
    let Some(place) = place_of(clients, session) else {
        return;
    };
    break_client(clients.at_mut(place));
}

fn end_client(client: &mut Client, number: CallNo)
    ensures { client.new ≡ ends number client.old }
{
    client.calls.end(number);
}

/// A call is over.
pub fn end(clients: &mut Listed<Client>, number: CallNo)
    ensures { clients.new ≡ at_first (has_call number) (ends number) clients.old }
{
    let Some(place) = place_of_call(clients, number) else {
        return;
    };
    end_client(clients.at_mut(place), number);
}
