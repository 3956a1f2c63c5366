//! The client sessions after an event of their node.
ghost use Rattle.std.specs.Prelude.{◌≡◌, [], None, OnOk};
ghost use Rattle.memory_count.specs.Faults.{HasCause};
ghost use Rattle.rpc_base.specs.Tables.{at_first};
ghost use Rattle.rpc_laws.specs.Front.{front_body, front_header};
ghost use Rattle.rpc_laws.specs.Sessions.{asks, clients_after, is_client};

use crate::clients as sessions;
use crate::reading::{front_body, read_control, read_front};
use memory_count::{Memory, NoMemory};
use packet_header::Life;
use rpc_base::{CallNo, Event, Listed, Octets, Owner, Peer, SessionNo, SessionState};
use rpc_laws::{Arrival, Asking, Client};

// The client sessions after a packet of this owner and number was sent at this clock.
fn change_at_sent(
    memory: &mut Memory,
    clients: &mut Listed<Client>,
    peer: Peer,
    owner: Owner,
    number: u16,
    clock: u64,
    bytes: &[u8],
) -> Result<(), NoMemory>
    ensures clients { OnOk result (clients.new
        ≡ clients_after clock (Event.Sent peer owner number) bytes.now None [] clients.old) }
    ensures cause { HasCause memory.old memory.new result }
{
    match owner {
        Owner::Control => match read_control(bytes) {
            None => {}
            Some(head) => sessions::tell(memory, clients, clock, &head)?,
        },
        Owner::Ask { session, request } => sessions::send(clients, clock, session, request, number),
        Owner::Reply { .. } => {}
    }
    Ok(())
}

// The client sessions after a packet of this owner and number was taken at this clock.
fn change_at_took(
    memory: &mut Memory,
    clients: &mut Listed<Client>,
    owner: Owner,
    number: u16,
    clock: u64,
    ring: &Listed<Arrival>,
) -> Result<(), NoMemory>
    ensures clients { OnOk result (clients.new
        ≡ clients_after clock (Event.Took owner number) [] (front_header ring.now)
        (front_body ring.now) clients.old) }
    ensures cause { HasCause memory.old memory.new result }
{
    match owner {
        Owner::Ask { session, request } => {
            sessions::take(
                memory,
                clients,
                clock,
                session,
                request,
                &read_front(ring),
                front_body(ring),
            )?;
        }
        Owner::Reply { .. } | Owner::Control => {}
    }
    Ok(())
}

// A call was accepted on a session, with these bytes.
fn change_at_asked(
    memory: &mut Memory,
    clients: &mut Listed<Client>,
    session: SessionNo,
    number: CallNo,
    req_type: u8,
    room: u32,
    bytes: &[u8],
) -> Result<(), NoMemory>
    ensures clients { OnOk result (clients.new ≡ at_first (is_client session)
        (asks (record { number = number; req_type = req_type; room = room; ask = bytes.now }))
        clients.old) }
    ensures cause { HasCause memory.old memory.new result }
{
    let ask = Octets::from(memory.copied(bytes)?);
    let what = Asking {
        number,
        req_type,
        room,
        ask,
    };
    sessions::ask(memory, clients, session, what)?;
    Ok(())
}

/// The client sessions after an event at this clock of their node, whose ring is the one before it.
pub fn change_clients(
    memory: &mut Memory,
    clients: &mut Listed<Client>,
    ring: &Listed<Arrival>,
    event: &Event,
    bytes: &[u8],
    clock: u64,
) -> Result<(), NoMemory>
    ensures clients { OnOk result (clients.new
        ≡ clients_after clock event.now bytes.now (front_header ring.now) (front_body ring.now)
        clients.old) }
    ensures cause { HasCause memory.old memory.new result }
{
    match event {
        Event::PairedClient {
            session,
            peer,
            server,
            credits,
            life,
        } => sessions::pair(memory, clients, *session, *peer, *server, *credits, *life)?,
        Event::Opened {
            session,
            peer,
            credits,
        } => sessions::open(memory, clients, *session, *peer, *credits)?,
        Event::Connected {
            session,
            server,
            life,
        } => sessions::connect(clients, *session, *server, Life(*life)),
        Event::FailedNoRoom { session } => sessions::come(clients, *session, SessionState::Failed),
        Event::FailedNoAnswer { session } => sessions::come(
            clients,
            *session,
            SessionState::Failed,
        ),
        Event::Closing { session } => sessions::come(clients, *session, SessionState::Closing),
        Event::ClosedHeard { session } => sessions::come(clients, *session, SessionState::Closed),
        Event::ClosedUnheard { session } => sessions::come(clients, *session, SessionState::Closed),
        Event::Sent {
            peer,
            owner,
            number,
        } => change_at_sent(memory, clients, *peer, *owner, *number, clock, bytes)?,
        Event::Asked {
            call,
            session,
            req_type,
            room,
        } => change_at_asked(memory, clients, *session, *call, *req_type, *room, bytes)?,
        Event::Begun { call, request } => sessions::begin(memory, clients, *call, *request)?,
        Event::Posted { owner, number } => match owner {
            Owner::Ask { session, request } => sessions::post(clients, *session, *request, *number),
            Owner::Reply { .. } | Owner::Control => {}
        },
        Event::Took { owner, number } => change_at_took(
            memory, clients, *owner, *number, clock, ring,
        )?,
        Event::Rolled { call, posted, got } => sessions::roll(
            memory, clients, *call, *posted, *got,
        )?,
        Event::Broken { session } => sessions::lose(clients, *session),
        Event::DoneOk { call } => sessions::end(clients, *call),
        Event::DoneTooSmall { call, .. } => sessions::end(clients, *call),
        Event::DonePeerLost { call } => sessions::end(clients, *call),
        _ => {}
    }
    Ok(())
}
