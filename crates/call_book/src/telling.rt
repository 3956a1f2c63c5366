//! What an event tells of a session or a call.
ghost use Rattle.std.specs.Prelude.{ℕ, ◌≡◌, IfOk};
ghost use Rattle.memory_count.specs.Faults.{HasCause};
ghost use Rattle.lawful_history.specs.Told.{ask_event, connected_by, opened_by, paired_by};
ghost use Rattle.lawful_history.specs.Told.{server_by};
ghost use Rattle.call_book.specs.Shelf.{told_at};

use crate::entries::{Ask, End, Joining};
use memory_count::{Memory, NoMemory};
use rpc_base::{Event, Octets};

/// Which server session was made, and for which client session.
pub fn server_told(event: &Event) -> Option<(u64, End)>
    ensures { (t : ℕ) → told_at t result ≡ server_by t event.now }
{
    match event {
        Event::PairedServer {
            session,
            peer,
            client,
            life,
            ..
        }
        | Event::Accepted {
            session,
            peer,
            client,
            life,
            ..
        } => Some((
            u64::from(session.0),
            End {
                node: peer.0,
                life: *life,
                session: client.0,
            },
        )),
        _ => None,
    }
}

/// Which client session was paired, and with which server session.
pub fn paired_told(event: &Event) -> Option<(u64, End)>
    ensures { (s : ℕ) → told_at s result ≡ paired_by s event.now }
{
    let Event::PairedClient {
        session,
        peer,
        server,
        life,
        ..
    } = event
    else {
        return None;
    };
    let end = End {
        node: peer.0,
        life: *life,
        session: server.0,
    };
    Some((u64::from(session.0), end))
}

/// Which client session was opened, and to which peer.
pub fn opened_told(event: &Event) -> Option<(u64, u8)>
    ensures { (s : ℕ) → told_at s result ≡ opened_by s event.now }
{
    let Event::Opened { session, peer, .. } = event else {
        return None;
    };
    Some((u64::from(session.0), peer.0))
}

/// Which client session was connected, and with which server session.
pub fn connected_told(event: &Event) -> Option<(u64, Joining)>
    ensures { (s : ℕ) → told_at s result ≡ connected_by s event.now }
{
    let Event::Connected {
        session,
        server,
        life,
    } = event
    else {
        return None;
    };
    let joining = Joining {
        session: server.0,
        life: *life,
    };
    Some((u64::from(session.0), joining))
}

/// Which call was asked, and what it asks. `NoMemory` comes only where memory for its bytes was
/// refused.
pub fn ask_told(
    memory: &mut Memory,
    event: &Event,
    first: &[u8],
) -> Result<Option<(u64, Ask)>, NoMemory>
    ensures told { IfOk result (λ told. (c : ℕ)
        → told_at c told ≡ ask_event c event.now first.now) }
    ensures cause { HasCause memory.old memory.new result }
{
    let Event::Asked {
        call,
        session,
        req_type,
        room,
    } = event
    else {
        return Ok(None);
    };
    let bytes = Octets::from(memory.copied(first)?);
    let ask = Ask {
        session: session.0,
        req_type: *req_type,
        room: *room,
        bytes,
    };
    Ok(Some((call.0, ask)))
}
