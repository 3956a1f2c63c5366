//! The copies in flight: `send FROM TO BYTE`, `carry I`, `lose I`, `repeat I`, `node FROM TO BYTE`
//! for what a node's own link sent, and `len`.
use crate::no_memory;
use crate::part::{Part, call_all, tell, tell_code, tell_no_call};
use crate::step::Step;
use memory_count::{Memory, NoMemory};
use network_model::{Copy, Net, NodeLink};
use rpc_base::{NodeId, Peer};
use rpc_outside::{Link, Taken};
use std::io;

/// Tells what each call answers, from no copy in flight on.
pub fn drive(rt: &impl Print, memory: &mut Memory, calls: &str) -> io::Result<()> {
    let mut net = Net::new(memory.alloc());
    call_all(rt, memory, &mut net, calls)
}

// The sender of a copy, its receiver, its length and its last byte.
fn shown(copy: Option<Copy>) -> Option<(u8, u8, usize, u8)> {
    let copy = copy?;
    let bytes = copy.bytes.bytes();
    let last = bytes.last()?;
    Some((copy.from.0, copy.to.0, bytes.len(), *last))
}

// Sends by the link of a node, and puts that into the network.
fn send_by_link(memory: &mut Memory, net: &mut Net, step: Step) -> Result<bool, NoMemory> {
    let mut link = NodeLink::new(memory.alloc());
    let sent = link.send(Peer(step.byte(1)), b"head", &[step.byte(2)]);
    link.send_into(memory, NodeId(step.byte(0)), net)?;
    Ok(sent == Ok(Taken::Whole))
}

// Sends bytes that end with this one, and tells how many copies are in flight.
fn send(rt: &impl Print, memory: &mut Memory, net: &mut Net, step: Step) -> io::Result<()> {
    let (from, to) = (NodeId(step.byte(0)), NodeId(step.byte(1)));
    let sent = net.send(memory, from, to, b"head", &[step.byte(2)]);
    sent.map_err(no_memory)?;
    println!(rt; "{} in flight", net.len())
}

impl Part for Net {
    fn call<R: Print>(&mut self, rt: &R, memory: &mut Memory, step: Step) -> io::Result<()> {
        match step.name {
            "send" => send(rt, memory, self, step),
            "node" => {
                let whole = send_by_link(memory, self, step).map_err(no_memory)?;
                println!(rt; "whole {whole}, {} in flight", self.len())
            }
            "carry" => tell_code(rt, &shown(self.carry(step.long(0)))),
            "lose" => tell_code(rt, &shown(self.lose(step.long(0)))),
            "repeat" => tell(rt, &self.repeat(memory, step.long(0)).map_err(no_memory)?),
            "len" => tell(rt, &self.len()),
            _ => tell_no_call(rt),
        }
    }
}
