//! The transmit ring: `push PACKET`, `front`, `pop`, `least OWNER`, `holds PACKET`, `flush OWNER`,
//! `replies` and `len`.
use crate::no_memory;
use crate::packets::{Told, owner_of, packet_of};
use crate::part::{Part, call_all, tell, tell_code, tell_no_call, tell_of};
use crate::step::Step;
use memory_count::Memory;
use packet_rings::TxRing;
use std::io;

/// Makes a ring of this size, and tells what each call of it answers.
pub fn drive(rt: &impl Print, memory: &mut Memory, size: u32, calls: &str) -> io::Result<()> {
    let mut ring = TxRing::new(memory, size).map_err(no_memory)?;
    call_all(rt, memory, &mut ring, calls)
}

fn push(rt: &impl Print, ring: &mut TxRing, packet: &str) -> io::Result<()> {
    if ring.len() == ring.size() {
        return println!(rt; "full");
    }
    ring.push(packet_of(packet));
    println!(rt; "pushed")
}

impl Part for TxRing {
    fn call<R: Print>(&mut self, rt: &R, _memory: &mut Memory, step: Step) -> io::Result<()> {
        match step.name {
            "push" => push(rt, self, step.word(0)),
            "front" => tell(rt, &Told(self.front().copied())),
            "pop" => tell(rt, &Told(self.pop())),
            "least" => tell_code(rt, &self.least(owner_of(step.word(0)))),
            "holds" => {
                let packet = packet_of(step.word(0));
                tell(rt, &self.holds(packet.owner, packet.number))
            }
            "flush" => tell(rt, &Told(self.flush(owner_of(step.word(0))))),
            "replies" => tell(rt, &self.replies()),
            "len" => tell_of(rt, self.len(), self.size()),
            _ => tell_no_call(rt),
        }
    }
}
