//! Pacing: when a packet that is posted is due, and what that leaves.
ghost use Rattle.std.specs.Prelude.{◌≡◌, ◌≤◌, ◌<◌, ◌++◌, ◌∷◌, [], Some, option_map, OnOk};
ghost use Rattle.std.specs.List.{find, position};
ghost use Rattle.memory_count.specs.Faults.{HasCause};
ghost use Rattle.rpc_base.specs.Tables.{at_first};
ghost use Rattle.packet_header.specs.Parts.{part_size};
ghost use Rattle.rpc_laws.specs.Pacing.{call_size, delayed, due_at, due_of, is_pace_of, is_paced};
ghost use Rattle.rpc_laws.specs.Pacing.{packet_size, paces_after};
ghost use Rattle.rpc_laws.specs.Sessions.{is_client};

use crate::{calls, clients as sessions};
use memory_count::{Memory, NoMemory};
use rpc_base::{
    Event, HEAD_BYTES, Listed, MOST_DATAGRAM_BYTES, Owner, PART_BYTES, RequestNo, SessionNo,
};
use rpc_laws::{Call, Client, Pace};

/// Microseconds in a millisecond, in which rates are told.
const MICROS: u64 = 1_000;

// Where the pace of a session that has a rate stands.
fn place_of_paced(paces: &Listed<Pace>, session: SessionNo) -> Option<usize>
    ensures { result ≡ position (is_paced session) paces.now }
{
    paces
        .as_slice()
        .iter()
        .position(|pace| pace.session.0 == session.0 && 0 < pace.rate)
}

fn due_by(paces: &Listed<Pace>, session: SessionNo, clock: u64) -> Option<u64>
    ensures { result ≡ option_map (due_at clock) (find (is_paced session) paces.now) }
{
    let Some(place) = place_of_paced(paces, session) else {
        return None;
    };
    Some(clock.max(paces.at(place).next))
}

/// When a packet that is posted at this clock is due, where it is paced.
pub fn due_of(paces: &Listed<Pace>, event: &Event, clock: u64) -> Option<u64>
    ensures { result ≡ due_of clock event.now paces.now }
{
    match event {
        Event::Posted { owner, .. } => match owner {
            Owner::Ask { session, .. } => due_by(paces, *session, clock),
            _ => None,
        },
        _ => None,
    }
}

// Where the pace of a session stands.
fn place_of(paces: &Listed<Pace>, session: SessionNo) -> Option<usize>
    ensures { result ≡ position (is_pace_of session) paces.now }
{
    paces
        .as_slice()
        .iter()
        .position(|pace| pace.session.0 == session.0)
}

/// How many bytes part `number` of so many has.
fn part_bytes(len: usize, number: u16) -> u64
    ensures { result ≡ part_size len number }
{
    let whole = u64::from(PART_BYTES);
    (len as u64)
        .saturating_sub(whole * u64::from(number))
        .min(whole)
}

// The length of the datagram of packet `number` of a call, in bytes.
fn call_size(call: &Call, number: u16) -> u64
    ensures { result ≡ call_size number (Some call.now) }
{
    HEAD_BYTES as u64 + part_bytes(call.what.ask.len(), number)
}

// That of a request of a session.
fn client_size(client: &Client, request: RequestNo, number: u16) -> u64
    ensures size { result ≡ packet_size request number (Some client.now) }
    ensures few { result ≤ MOST_DATAGRAM_BYTES }
{
    match calls::place_of_active(&client.calls, request) {
        None => HEAD_BYTES as u64,
        Some(place) => call_size(client.calls.at(place), number),
    }
}

fn packet_size(clients: &Listed<Client>, session: SessionNo, request: RequestNo, number: u16) -> u64
    ensures size { result ≡ packet_size request number (find (is_client session) clients.now) }
    ensures few { result ≤ MOST_DATAGRAM_BYTES }
{
    match sessions::place_of(clients, session) {
        None => HEAD_BYTES as u64,
        Some(place) => client_size(clients.at(place), request, number),
    }
}

// The next packet of a pace is due so much later.
fn delay_pace(pace: &mut Pace, clock: u64, size: u64)
    requires rate { 0 < pace.old.rate }
    requires size { size ≤ MOST_DATAGRAM_BYTES }
    ensures { pace.new ≡ delayed clock size pace.old }
{
    let due = clock.max(pace.next);
    pace.next = due.saturating_add((size * MICROS).div_ceil(u64::from(pace.rate)));
}

// A packet of a session was posted, in a datagram of `size` bytes.
fn delay(paces: &mut Listed<Pace>, session: SessionNo, clock: u64, size: u64)
    requires { size ≤ MOST_DATAGRAM_BYTES }
    ensures { paces.new ≡ at_first (is_paced session) (delayed clock size) paces.old }
{
    let Some(place) = place_of_paced(paces, session) else {
        return;
    };
    delay_pace(paces.at_mut(place), clock, size);
}

fn rate_pace(pace: &mut Pace, rate: u32)
    ensures { pace.new ≡ record pace.old { rate = rate } }
{
    pace.rate = rate;
}

// A session has this rate.
fn set_rate(paces: &mut Listed<Pace>, session: SessionNo, rate: u32)
    ensures { paces.new ≡ at_first (is_pace_of session) (λ p. record p { rate = rate })
        paces.old }
{
    let Some(place) = place_of(paces, session) else {
        return;
    };
    rate_pace(paces.at_mut(place), rate);
}

// A session more, which isn't paced.
fn add(memory: &mut Memory, paces: &mut Listed<Pace>, session: SessionNo) -> Result<(), NoMemory>
    ensures paces { OnOk result (paces.new
        ≡ paces.old ++ record { session = session; rate = 0; next = 0 } ∷ []) }
    ensures cause { HasCause memory.old memory.new result }
{
    let added = paces.push(Pace {
        session,
        rate: 0,
        next: 0,
    });
    memory.of(added)
}

/// The paces after an event at this clock of their node, whose client sessions are those before it.
pub fn change_paces(
    memory: &mut Memory,
    paces: &mut Listed<Pace>,
    clients: &Listed<Client>,
    event: &Event,
    clock: u64,
) -> Result<(), NoMemory>
    ensures paces { OnOk result (paces.new ≡ paces_after clock event.now clients.now paces.old) }
    ensures cause { HasCause memory.old memory.new result }
{
    match event {
        Event::Opened { session, .. } => add(memory, paces, *session)?,
        Event::PairedClient { session, .. } => add(memory, paces, *session)?,
        Event::Rated { session, rate } => set_rate(paces, *session, *rate),
        Event::Posted { owner, number } => match owner {
            Owner::Ask { session, request } => {
                let size = packet_size(clients, *session, *request, *number);
                delay(paces, *session, clock, size);
            }
            _ => {}
        },
        _ => {}
    }
    Ok(())
}
