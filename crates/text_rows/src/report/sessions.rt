//! Events of a node and of its sessions.
use crate::report::names::{CLIENT, LIFE, NODE, PEER, SERVER};
use rpc_base::{Event, SessionState};
use rpc_outside::{MemRecorder, Recorder};

/// Notes those of a node and of client sessions.
pub fn note_client(rec: &mut MemRecorder) {
    let session = CLIENT;
    let events = [
        Event::Made { ring: 32 },
        Event::Restarted { life: LIFE },
        Event::Opened {
            session,
            peer: PEER,
            credits: 9,
        },
        Event::PairedClient {
            session,
            peer: PEER,
            server: SERVER,
            credits: 9,
            life: LIFE,
        },
        Event::Connected {
            session,
            server: SERVER,
            life: LIFE,
        },
        Event::FailedNoRoom { session },
        Event::FailedNoAnswer { session },
        Event::Closing { session },
        Event::ClosedHeard { session },
        Event::ClosedUnheard { session },
        Event::Broken { session },
        Event::Rated { session, rate: 70 },
    ];
    for event in events {
        rec.note(NODE, event, b"", b"");
    }
}

/// Notes those of server sessions.
pub fn note_server(rec: &mut MemRecorder) {
    let (peer, client) = (PEER, CLIENT);
    let events = [
        Event::PairedServer {
            session: SERVER,
            peer,
            client,
            credits: 9,
            life: LIFE,
        },
        Event::Accepted {
            session: SERVER,
            peer,
            client,
            credits: 9,
            life: LIFE,
        },
        Event::Declined {
            peer,
            client,
            credits: 9,
        },
        Event::Starved {
            peer,
            client,
            credits: 9,
        },
        Event::Ended { session: SERVER },
    ];
    for event in events {
        rec.note(NODE, event, b"", b"");
    }
}

/// Notes what is refused.
pub fn note_refusals(rec: &mut MemRecorder) {
    let (session, state) = (CLIENT, SessionState::Spent);
    let events = [
        Event::NconnectRing {
            shares: 30,
            credits: 9,
            ring: 32,
        },
        Event::NconnectNumbers,
        Event::NcloseState { session, state },
        Event::NcloseBusy { session, calls: 7 },
        Event::Nrate { session, state },
        Event::NcallTooLarge {
            session,
            len: 1_048_577,
        },
        Event::NcallState { session, state },
    ];
    for event in events {
        rec.note(NODE, event, b"", b"");
    }
}
