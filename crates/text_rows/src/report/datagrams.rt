//! Events of datagrams, at a node and on the network.
use crate::report::names::{NODE, PEER, of_call};
use rpc_base::{Event, Owner, Who};
use rpc_outside::{MemRecorder, Recorder};

/// Notes those of a node.
pub fn note(rec: &mut MemRecorder) {
    let of_a_call = Event::Sent {
        peer: PEER,
        owner: of_call(),
        number: 6,
    };
    rec.note(NODE, of_a_call, b"\x0a", b"\x0b");
    let of_control = Event::Sent {
        peer: PEER,
        owner: Owner::Control,
        number: 0,
    };
    rec.note(NODE, of_control, b"\x0a", b"");
    rec.note(NODE, Event::Unsent { peer: PEER }, b"\x0a", b"");
    rec.note(NODE, Event::Arrived { peer: PEER }, b"\x0a\xff", b"");
    rec.note(NODE, Event::Overflowed { peer: PEER }, b"\x0a", b"");
    rec.note(NODE, Event::Bad { peer: PEER }, b"", b"");
    rec.note(NODE, Event::Heard, b"", b"");
}

/// Notes those of the network.
pub fn note_network(rec: &mut MemRecorder) {
    let events = [
        Event::Carried { copy: 6 },
        Event::Lost { copy: 6 },
        Event::Repeated { copy: 6 },
        Event::Missed { number: 6 },
        Event::Ticked { by: 6 },
    ];
    for event in events {
        rec.note(Who::Net, event, b"", b"");
    }
}
