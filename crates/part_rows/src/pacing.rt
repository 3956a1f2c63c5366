//! The pacer: `add DUE PACKET`, `release NOW`, `due NOW`, `front`, `pop`, `least OWNER`,
//! `holds PACKET`, `flush OWNER` and `len`.
use crate::no_memory;
use crate::packets::{Told, owner_of, packet_of};
use crate::part::{Part, call_all, tell, tell_code, tell_no_call, tell_of};
use crate::step::Step;
use memory_count::Memory;
use pacing_wheel::{Paced, Pacer};
use std::io;

/// Makes a pacer of this size, and tells what each call of it answers.
pub fn drive(rt: &impl Print, memory: &mut Memory, size: u32, calls: &str) -> io::Result<()> {
    let mut pacer = Pacer::new(memory, size).map_err(no_memory)?;
    call_all(rt, memory, &mut pacer, calls)
}

fn add(rt: &impl Print, pacer: &mut Pacer, due: u64, packet: &str) -> io::Result<()> {
    if pacer.len() == pacer.size() {
        return println!(rt; "full");
    }
    pacer.add(due, packet_of(packet));
    println!(rt; "added")
}

fn tell_due(rt: &impl Print, paced: Option<Paced>) -> io::Result<()> {
    match paced {
        Some(paced) => println!(rt; "{} due {}", Told(Some(paced.entry)), paced.due),
        None => println!(rt; "none"),
    }
}

impl Part for Pacer {
    fn call<R: Print>(&mut self, rt: &R, _memory: &mut Memory, step: Step) -> io::Result<()> {
        match step.name {
            "add" => add(rt, self, step.huge(0), step.word(1)),
            "release" => tell(rt, &Told(self.release(step.huge(0)))),
            "due" => tell_due(rt, self.first_due(step.huge(0))),
            "front" => tell_due(rt, self.front()),
            "pop" => tell(rt, &Told(self.pop())),
            "least" => tell_code(rt, &self.least(owner_of(step.word(0)))),
            "holds" => {
                let packet = packet_of(step.word(0));
                tell(rt, &self.holds(packet.owner, packet.number))
            }
            "flush" => tell(rt, &Told(self.flush(owner_of(step.word(0))))),
            "len" => tell_of(rt, self.len(), self.size()),
            _ => tell_no_call(rt),
        }
    }
}
