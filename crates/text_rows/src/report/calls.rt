//! Events of calls and of the packets that are theirs.
use crate::report::names::{CALL, CLIENT, NODE, SERVER, of_call, of_slot, request};
use rpc_base::{DropReason, Event};
use rpc_outside::{MemRecorder, Recorder};

/// Notes those that come without bytes.
pub fn note(rec: &mut MemRecorder) {
    let events = [
        Event::Begun {
            call: CALL,
            request: request(),
        },
        Event::Posted {
            owner: of_call(),
            number: 6,
        },
        Event::Flushed {
            owner: of_slot(),
            number: 6,
        },
        Event::Took {
            owner: of_call(),
            number: 6,
        },
        Event::Again {
            owner: of_slot(),
            number: 6,
        },
        Event::Dropped {
            reason: DropReason::NoSession,
        },
        Event::Given {
            session: SERVER,
            request: request(),
        },
        Event::Worked {
            session: SERVER,
            request: request(),
        },
        Event::Rolled {
            call: CALL,
            posted: 8,
            got: 6,
        },
        Event::DoneTooSmall {
            call: CALL,
            size: 9,
        },
        Event::DonePeerLost { call: CALL },
        Event::Polled { now: 5_000 },
        Event::Missed { number: 6 },
    ];
    for event in events {
        rec.note(NODE, event, b"", b"");
    }
}

/// Notes those that come with a request, with an answer or with both.
pub fn note_with_bytes(rec: &mut MemRecorder) {
    let asked = Event::Asked {
        call: CALL,
        session: CLIENT,
        req_type: 5,
        room: 64,
    };
    rec.note(NODE, asked, b"\x0a", b"");
    let ran = Event::Ran {
        session: SERVER,
        request: request(),
        req_type: 5,
    };
    rec.note(NODE, ran, b"\x0a", b"\x0b");
    rec.note(NODE, Event::DoneOk { call: CALL }, b"\x0a", b"");
}
