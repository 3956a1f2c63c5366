//! A thousand calls over a link in memory, and a thousand over two sockets of this machine.
use crate::fault::Fault;
use crate::options::{Options, read};
use crate::run::Run;
use crate::server::Server;
use crate::wire::Wire;
use call_load::{Caller, Tally};
use memory_count::Memory;
use rpc_outside::Link;
use std::io::Write;
use udp_link::UdpLink;

/// Addresses of this machine, one after another until one is free.
const ADDRESSES: [&str; 4] = [
    "127.0.0.1:47101",
    "127.0.0.1:47102",
    "127.0.0.1:47103",
    "127.0.0.1:47104",
];

/// The options of a row.
const ROW: &str = "--calls 1000 --sessions 8 --pending 64 --timeout 1000000";

fn row_words(rt: &HostRuntime) -> Result<Vec<String>, Fault> {
    let mut memory = Memory::new(rt.alloc());
    let mut words = Vec::new(rt.alloc());
    for word in ROW.split_whitespace() {
        let word = memory.of(String::from_str(rt.alloc(), word))?;
        memory.push(&mut words, word)?;
    }
    Ok(words)
}

fn tell(rt: &HostRuntime, tally: &Tally) -> Result<(), Fault> {
    let told = println!(rt;
        "calls {} right {} wrong {} small {} lost {}",
        tally.asked, tally.right, tally.wrong, tally.small, tally.lost
    );
    if told.is_err() {
        return Err(Fault::Write);
    }
    if tally.right == tally.asked {
        Ok(())
    } else {
        Err(Fault::Calls)
    }
}

/// Calls of a server in this program, over a link in memory.
pub fn over_memory(rt: &HostRuntime, options: &Options) -> Result<Tally, Fault> {
    let aim = options.aim()?;
    let mut memory = Memory::new(rt.alloc());
    let (there, here) = (Wire::new(&mut memory)?, Wire::new(&mut memory)?);
    let server = Server::new(&mut memory, there)?;
    let caller = Caller::new(&mut memory, aim)?;
    let mut run = Run::new(memory, caller, here, server, rt);
    run.go(rt, options)
}

// Calls of a server in this program, whose link has the address of the options.
fn over_two_sockets(rt: &HostRuntime, options: &Options) -> Result<Tally, Fault> {
    let aim = options.aim()?;
    let mut link = UdpLink::new(rt.alloc(), rt);
    if link.bind(options.addr).is_err() {
        return Err(Fault::Link);
    }
    let mut memory = Memory::new(rt.alloc());
    let server = Server::new(&mut memory, link)?;
    let caller = Caller::new(&mut memory, aim)?;
    let mut run = Run::new(memory, caller, UdpLink::of_one(rt.alloc(), rt), server, rt);
    run.go(rt, options)
}

fn socket_rows(rt: &HostRuntime, words: &[String]) -> Result<Tally, Fault> {
    for addr in ADDRESSES {
        match over_two_sockets(rt, &read(addr, words, true)?) {
            Err(Fault::Link) => {}
            ended => return ended,
        }
    }
    Err(Fault::Link)
}

/// Runs both, and writes a line for each.
pub fn run(rt: &HostRuntime) -> Result<(), Fault> {
    let words = row_words(rt)?;
    let in_memory = over_memory(rt, &read("memory", words.as_slice(), true)?)?;
    tell(rt, &in_memory)?;
    let over_sockets = socket_rows(rt, words.as_slice())?;
    tell(rt, &over_sockets)
}
