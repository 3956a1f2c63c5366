//! The receive ring: `push PEER LENGTH BYTE` for a datagram of so many bytes that are all the same,
//! `front`, `drop` and `len`.
use crate::no_memory;
use crate::part::{Part, call_all, tell_no_call, tell_of};
use crate::step::Step;
use memory_count::Memory;
use packet_rings::RxRing;
use rpc_base::{MOST_DATAGRAM_BYTES, Peer};
use std::io;

/// Makes a ring of this size, and tells what each call of it answers.
pub fn drive(rt: &impl Print, memory: &mut Memory, size: u32, calls: &str) -> io::Result<()> {
    let mut ring = RxRing::new(memory, size).map_err(no_memory)?;
    call_all(rt, memory, &mut ring, calls)
}

fn push(rt: &impl Print, ring: &mut RxRing, step: Step) -> io::Result<()> {
    let bytes = [step.byte(2); MOST_DATAGRAM_BYTES];
    let len = usize::from(step.short(1)).min(MOST_DATAGRAM_BYTES);
    if ring.len() == ring.size() {
        return println!(rt; "full");
    }
    ring.push(Peer(step.byte(0)), &bytes[..len]);
    println!(rt; "pushed")
}

// The peer, the length, and the first and the last byte.
fn tell_front(rt: &impl Print, ring: &RxRing) -> io::Result<()> {
    let Some(datagram) = ring.front() else {
        return println!(rt; "none");
    };
    let (peer, bytes) = (datagram.peer().0, datagram.bytes());
    println!(rt;
        "{} bytes of peer {peer}, from {:?} to {:?}",
        bytes.len(),
        bytes.first(),
        bytes.last()
    )
}

impl Part for RxRing {
    fn call<R: Print>(&mut self, rt: &R, _memory: &mut Memory, step: Step) -> io::Result<()> {
        match step.name {
            "push" => push(rt, self, step),
            "front" => tell_front(rt, self),
            "drop" => {
                self.drop_front();
                tell_of(rt, self.len(), self.size())
            }
            "len" => println!(rt;
                "{} of {}, empty {}",
                self.len(),
                self.size(),
                self.is_empty()
            ),
            _ => tell_no_call(rt),
        }
    }
}
