//! What is done to an endpoint by a row of standard input, step by step.
use crate::spelling::bytes_of;
use memory_count::{Memory, NoMemory};
use packet_header::Life;
use rpc_base::{Peer, SessionNo};

/// What is done to the endpoint.
#[derive(Drop)]
pub enum Act {
    /// It takes the server end of a pair, with a client of this life.
    Server {
        peer: Peer,
        life: Life,
        client: SessionNo,
        credits: u16,
    },
    /// It takes the client end of a pair, with a server of this life.
    Client {
        peer: Peer,
        life: Life,
        server: SessionNo,
        credits: u16,
    },
    /// It opens a session.
    Connect {
        peer: Peer,
        credits: u16,
    },
    Ask {
        session: SessionNo,
        req_type: u8,
        bytes: Vec<u8>,
        room: u32,
    },
    Deliver {
        peer: Peer,
        bytes: Vec<u8>,
    },
    /// Its workers work this job of those that wait, in the order of giving, from 0 on.
    Work {
        job: u32,
    },
    /// It is polled at this moment, in microseconds.
    Poll {
        now: u64,
    },
}

fn peer_of(word: &str) -> Option<Peer> {
    Some(Peer(word.parse::<u8>().ok()?))
}

fn session_of(word: &str) -> Option<SessionNo> {
    Some(SessionNo(word.parse::<u16>().ok()?))
}

// A peer, a session of its and credits.
fn end_of(peer: &str, session: &str, credits: &str) -> Option<(Peer, SessionNo, u16)> {
    Some((
        peer_of(peer)?,
        session_of(session)?,
        credits.parse::<u16>().ok()?,
    ))
}

fn life_of(word: &str) -> Option<Life> {
    Some(Life(word.parse::<u32>().ok()?))
}

fn server_of(peer: &str, session: &str, credits: &str, life: &str) -> Option<Act> {
    let (peer, client, credits) = end_of(peer, session, credits)?;
    Some(Act::Server {
        peer,
        life: life_of(life)?,
        client,
        credits,
    })
}

fn client_of(peer: &str, session: &str, credits: &str, life: &str) -> Option<Act> {
    let (peer, server, credits) = end_of(peer, session, credits)?;
    Some(Act::Client {
        peer,
        life: life_of(life)?,
        server,
        credits,
    })
}

fn connect_of(peer: &str, credits: &str) -> Option<Act> {
    Some(Act::Connect {
        peer: peer_of(peer)?,
        credits: credits.parse::<u16>().ok()?,
    })
}

// A session, a type and the room for an answer.
fn call_of(session: &str, req_type: &str, room: &str) -> Option<(SessionNo, u8, u32)> {
    Some((
        session_of(session)?,
        req_type.parse::<u8>().ok()?,
        room.parse::<u32>().ok()?,
    ))
}

fn ask_of(
    memory: &mut Memory,
    session: &str,
    req_type: &str,
    bytes: &str,
    room: &str,
) -> Result<Option<Act>, NoMemory> {
    let Some((session, req_type, room)) = call_of(session, req_type, room) else {
        return Ok(None);
    };
    let Some(bytes) = bytes_of(memory, bytes)? else {
        return Ok(None);
    };
    Ok(Some(Act::Ask {
        session,
        req_type,
        bytes,
        room,
    }))
}

fn deliver_of(memory: &mut Memory, peer: &str, bytes: &str) -> Result<Option<Act>, NoMemory> {
    let Some(peer) = peer_of(peer) else {
        return Ok(None);
    };
    let Some(bytes) = bytes_of(memory, bytes)? else {
        return Ok(None);
    };
    Ok(Some(Act::Deliver { peer, bytes }))
}

fn work_of(job: &str) -> Option<Act> {
    let job = job.parse::<u32>().ok()?;
    Some(Act::Work { job })
}

fn poll_of(now: &str) -> Option<Act> {
    let now = now.parse::<u64>().ok()?;
    Some(Act::Poll { now })
}

/// The step that a line spells, if it does. Its numbers fit their types, and may still be outside
/// what an endpoint takes.
pub fn read_act(memory: &mut Memory, line: &str) -> Result<Option<Act>, NoMemory> {
    let mut words = line.split(' ');
    let name = words.next().unwrap_or("");
    let (first, second) = (words.next().unwrap_or(""), words.next().unwrap_or(""));
    let (third, fourth) = (words.next().unwrap_or(""), words.next().unwrap_or(""));
    match name {
        "server" => Ok(server_of(first, second, third, fourth)),
        "client" => Ok(client_of(first, second, third, fourth)),
        "connect" => Ok(connect_of(first, second)),
        "ask" => ask_of(memory, first, second, third, fourth),
        "deliver" => deliver_of(memory, first, second),
        "work" => Ok(work_of(first)),
        "poll" => Ok(poll_of(first)),
        _ => Ok(None),
    }
}
