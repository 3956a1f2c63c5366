//! The live server sessions and the newest requests of their slots, as events change them.
ghost use Rattle.std.specs.Prelude.{◌≡◌, ◌++◌, ◌∷◌, [], IfOk, OnOk};
ghost use Rattle.std.specs.List.{list_any, position};
ghost use Rattle.memory_count.specs.Faults.{HasCause};
ghost use Rattle.rpc_base.specs.Tables.{at_first, without_first};
ghost use Rattle.rpc_laws.specs.Requests.{answered, first_packet, given, in_slot_of, is_request};
ghost use Rattle.rpc_laws.specs.Front.{front_body, front_header};
ghost use Rattle.rpc_laws.specs.Requests.{is_server, next_packet, server_end, servers_after};
ghost use Rattle.rpc_laws.specs.Requests.{took_packet};

use crate::counting::one_more;
use crate::reading::{front_body, read_front};
use memory_count::{Memory, NoMemory};
use packet_header::{Life, MessageHeader};
use rpc_base::{Event, Listed, Octets, Owner, Peer, RequestNo, SessionNo};
use rpc_laws::{Arrival, Served, Server, Way};

// A session more.
fn add(
    memory: &mut Memory,
    servers: &mut Listed<Server>,
    number: SessionNo,
    peer: Peer,
    other: SessionNo,
    credits: u16,
    life: u32,
) -> Result<(), NoMemory>
    ensures servers { OnOk result (servers.new
        ≡ servers.old ++ server_end number peer other credits life ∷ []) }
    ensures cause { HasCause memory.old memory.new result }
{
    let added = servers.push(Server {
        way: Way {
            number,
            peer,
            other,
            life: Life(life),
        },
        credits,
        slots: Listed::new(memory.alloc()),
    });
    memory.of(added)
}

/// Where a session stands.
pub fn place_of_server(servers: &Listed<Server>, session: SessionNo) -> Option<usize>
    ensures { result ≡ position (is_server session) servers.now }
{
    servers
        .as_slice()
        .iter()
        .position(|server| server.way.number.0 == session.0)
}

// A session is over.
fn end(servers: &mut Listed<Server>, session: SessionNo)
    ensures { servers.new ≡ without_first (is_server session) servers.old }
{
    if let Some(place) = place_of_server(servers, session) {
        servers.remove_at(place);
    }
}

/// Where a request stands among the newest of their slots.
pub fn place_of_request(slots: &Listed<Served>, request: RequestNo) -> Option<usize>
    ensures { result ≡ position (is_request request) slots.now }
{
    slots
        .as_slice()
        .iter()
        .position(|served| served.number.get() == request.get())
}

/// Where the newest request of the slot of this one stands.
pub fn place_in_slot(slots: &Listed<Served>, request: RequestNo) -> Option<usize>
    ensures { result ≡ position (in_slot_of request) slots.now }
{
    slots
        .as_slice()
        .iter()
        .position(|served| served.number.slot() == request.slot())
}

// A request is given to a worker, with its bytes.
fn give_slot(memory: &Memory, served: &mut Served)
    ensures { served.new ≡ given served.old }
{
    served.ask = Octets::from(Vec::new(memory.alloc()));
    served.working = true;
}

fn give_in(memory: &Memory, slots: &mut Listed<Served>, request: RequestNo)
    ensures { slots.new ≡ at_first (is_request request) given slots.old }
{
    let Some(place) = place_of_request(slots, request) else {
        return;
    };
    give_slot(memory, slots.at_mut(place));
}

fn give_server(memory: &Memory, server: &mut Server, request: RequestNo)
    ensures { server.new ≡ record server.old {
      slots = at_first (is_request request) given
          server.old.slots;
    } }
{
    give_in(memory, &mut server.slots, request);
}

// A request of a session is given to a worker, with its bytes.
fn give(memory: &Memory, servers: &mut Listed<Server>, session: SessionNo, request: RequestNo)
    ensures { servers.new ≡ at_first (is_server session)
        (λ v. record v { slots = at_first (is_request request) given v.slots }) servers.old }
{
    let Some(place) = place_of_server(servers, session) else {
        return;
    };
    give_server(memory, servers.at_mut(place), request);
}

// The handler's answer is there, and the bytes of the request are given up.
fn answer_slot(memory: &mut Memory, served: &mut Served, bytes: &[u8]) -> Result<(), NoMemory>
    ensures served { OnOk result (served.new ≡ answered bytes.now served.old) }
    ensures cause { HasCause memory.old memory.new result }
{
    served.answer = Some(Octets::from(memory.copied(bytes)?));
    served.ask = Octets::from(Vec::new(memory.alloc()));
    served.working = false;
    Ok(())
}

fn answer_in(
    memory: &mut Memory,
    slots: &mut Listed<Served>,
    request: RequestNo,
    bytes: &[u8],
) -> Result<(), NoMemory>
    ensures slots { OnOk result (slots.new
        ≡ at_first (is_request request) (answered bytes.now) slots.old) }
    ensures cause { HasCause memory.old memory.new result }
{
    let Some(place) = place_of_request(slots, request) else {
        return Ok(());
    };
    answer_slot(memory, slots.at_mut(place), bytes)?;
    Ok(())
}

fn answer_server(
    memory: &mut Memory,
    server: &mut Server,
    request: RequestNo,
    bytes: &[u8],
) -> Result<(), NoMemory>
    ensures server { OnOk result (server.new ≡ record server.old {
      slots = at_first (is_request request) (answered bytes.now) server.old.slots;
    }) }
    ensures cause { HasCause memory.old memory.new result }
{
    answer_in(memory, &mut server.slots, request, bytes)?;
    Ok(())
}

// The handler gave this answer to a request of a session.
fn answer(
    memory: &mut Memory,
    servers: &mut Listed<Server>,
    session: SessionNo,
    request: RequestNo,
    bytes: &[u8],
) -> Result<(), NoMemory>
    ensures servers { OnOk result (servers.new ≡ at_first (is_server session)
        (λ v. record v { slots = at_first (is_request request) (answered bytes.now) v.slots })
        servers.old) }
    ensures cause { HasCause memory.old memory.new result }
{
    let Some(place) = place_of_server(servers, session) else {
        return Ok(());
    };
    answer_server(memory, servers.at_mut(place), request, bytes)?;
    Ok(())
}

// One more packet in turn.
fn join(memory: &mut Memory, served: &mut Served, body: &[u8]) -> Result<(), NoMemory>
    ensures served { OnOk result (served.new ≡ next_packet body.now served.old) }
    ensures cause { HasCause memory.old memory.new result }
{
    served.taken = one_more(memory, served.taken)?;
    memory.of(served.ask.append(body))
}

// A request that begins with this packet.
fn first_packet(
    memory: &mut Memory,
    request: RequestNo,
    head: &MessageHeader,
    body: &[u8],
) -> Result<Served, NoMemory>
    ensures served { IfOk result (λ served. served ≡ first_packet request head.now body.now) }
    ensures cause { HasCause memory.old memory.new result }
{
    let ask = Octets::from(memory.copied(body)?);
    Ok(Served {
        number: request,
        req_type: head.req_type,
        size: head.size,
        taken: 1,
        ask,
        working: false,
        answer: None,
    })
}

// The request of this number goes on, if it is there.
fn go_on(
    memory: &mut Memory,
    slots: &mut Listed<Served>,
    request: RequestNo,
    body: &[u8],
) -> Result<(), NoMemory>
    ensures slots { OnOk result (slots.new
        ≡ at_first (is_request request) (next_packet body.now) slots.old) }
    ensures cause { HasCause memory.old memory.new result }
{
    let Some(place) = place_of_request(slots, request) else {
        return Ok(());
    };
    join(memory, slots.at_mut(place), body)?;
    Ok(())
}

// The newest request of the slot of this one, if there is one, leaves it.
fn leave(slots: &mut Listed<Served>, request: RequestNo)
    ensures { slots.new ≡ without_first (in_slot_of request) slots.old }
{
    if let Some(place) = place_in_slot(slots, request) {
        slots.remove_at(place);
    }
}

// A request begins in the place of the older one of its slot.
fn begin(
    memory: &mut Memory,
    slots: &mut Listed<Served>,
    request: RequestNo,
    head: &MessageHeader,
    body: &[u8],
) -> Result<(), NoMemory>
    ensures slots { OnOk result (slots.new ≡ without_first (in_slot_of request) slots.old
        ++ first_packet request head.now body.now ∷ []) }
    ensures cause { HasCause memory.old memory.new result }
{
    let served = first_packet(memory, request, head, body)?;
    leave(slots, request);
    memory.of(slots.push(served))
}

// Whether a request is the newest of its slot.
fn has_request(slots: &Listed<Served>, request: RequestNo) -> bool
    ensures { result ≡ list_any (is_request request) slots.now }
{
    slots
        .as_slice()
        .iter()
        .any(|served| served.number.get() == request.get())
}

fn take_in(
    memory: &mut Memory,
    slots: &mut Listed<Served>,
    request: RequestNo,
    head: &Option<MessageHeader>,
    body: &[u8],
) -> Result<(), NoMemory>
    ensures slots { OnOk result (slots.new ≡ took_packet request head.now body.now slots.old) }
    ensures cause { HasCause memory.old memory.new result }
{
    match head {
        None => Ok(()),
        Some(_) if has_request(slots, request) => go_on(memory, slots, request, body),
        Some(head) => begin(memory, slots, request, head, body),
    }
}

fn take_server(
    memory: &mut Memory,
    server: &mut Server,
    request: RequestNo,
    head: &Option<MessageHeader>,
    body: &[u8],
) -> Result<(), NoMemory>
    ensures server { OnOk result (server.new ≡ record server.old {
      slots = took_packet request head.now body.now server.old.slots;
    }) }
    ensures cause { HasCause memory.old memory.new result }
{
    take_in(memory, &mut server.slots, request, head, body)?;
    Ok(())
}

// A packet with this header and body was taken of a request of a session.
fn take(
    memory: &mut Memory,
    servers: &mut Listed<Server>,
    session: SessionNo,
    request: RequestNo,
    head: &Option<MessageHeader>,
    body: &[u8],
) -> Result<(), NoMemory>
    ensures servers { OnOk result (servers.new ≡ at_first (is_server session)
        (λ v. record v { slots = took_packet request head.now body.now v.slots }) servers.old) }
    ensures cause { HasCause memory.old memory.new result }
{
    let Some(place) = place_of_server(servers, session) else {
        return Ok(());
    };
    take_server(memory, servers.at_mut(place), request, head, body)?;
    Ok(())
}

/// The server sessions after an event of their node, whose ring is the one before it. `bytes` is
/// the answer of a handler that ran.
pub fn change_servers(
    memory: &mut Memory,
    servers: &mut Listed<Server>,
    ring: &Listed<Arrival>,
    event: &Event,
    bytes: &[u8],
) -> Result<(), NoMemory>
    ensures servers { OnOk result (servers.new
        ≡ servers_after event.now bytes.now (front_header ring.now) (front_body ring.now)
        servers.old) }
    ensures cause { HasCause memory.old memory.new result }
{
    match event {
        Event::PairedServer {
            session,
            peer,
            client,
            credits,
            life,
        } => add(memory, servers, *session, *peer, *client, *credits, *life)?,
        Event::Accepted {
            session,
            peer,
            client,
            credits,
            life,
        } => add(memory, servers, *session, *peer, *client, *credits, *life)?,
        Event::Ended { session } => end(servers, *session),
        Event::Took { owner, .. } => match owner {
            Owner::Reply { session, request } => {
                let head = read_front(ring);
                take(memory, servers, *session, *request, &head, front_body(ring))?;
            }
            Owner::Ask { .. } | Owner::Control => {}
        },
        Event::Given { session, request } => give(memory, servers, *session, *request),
        Event::Ran {
            session,
            request,
            ..
        } => answer(memory, servers, *session, *request, bytes)?,
        _ => {}
    }
    Ok(())
}
