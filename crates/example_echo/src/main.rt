//! An echo over UDP. `serve` answers calls, and `ask` asks once; without a word one node does both,
//! and asks itself.
#![tactic(auto)]

use erpc_lib::{
    Clock, Credits, Done, Link, Memory, Outcome, Recorder, RpcError, Running, Service, Workers,
    udp_plain,
};
use std::{env, io, str};

const SERVER: &str = "127.0.0.1:47321";

const CLIENT: &str = "127.0.0.1:47322";

/// The type of the plain service that answers with what it was asked.
const ECHO: u8 = 1;

/// The answer may have so many bytes.
const ROOM: u32 = 64;

/// After so many turns the client gives up.
const TURNS: u32 = 1_000_000;

fn serve<V: Service, W: Workers, L: Link, C: Clock, R: Recorder>(
    node: &mut Running<V, W, L, C, R>,
) -> Result<(), RpcError> {
    for _turn in 0..u32::MAX {
        node.turn()?;
    }
    Ok(())
}

fn ask<V: Service, W: Workers, L: Link, C: Clock, R: Recorder>(
    node: &mut Running<V, W, L, C, R>,
    text: &str,
) -> Result<Done, RpcError> {
    let session = node.connect_within(SERVER, Credits::one(), TURNS)?;
    node.ask(session, ECHO, text.as_bytes(), ROOM)?;
    node.wait_ended(TURNS)
}

fn tell(rt: &HostRuntime, done: &Done) -> io::Result<()> {
    match done.outcome {
        Outcome::Ok => println!(rt; "{}", str::from_utf8(done.resp.bytes()).unwrap_or("?")),
        Outcome::TooSmall { size } => println!(rt; "the answer has {size} bytes"),
        Outcome::PeerLost => println!(rt; "no answer; the handler may have run"),
    }
}

// Answers calls, or asks one and tells what came of it.
fn run<V: Service, W: Workers, L: Link, C: Clock, R: Recorder>(
    rt: &HostRuntime,
    node: &mut Running<V, W, L, C, R>,
    serves: bool,
) -> anyhow::Result<()> {
    if serves {
        return Ok(serve(node)?);
    }
    Ok(tell(rt, &ask(node, "hello")?)?)
}

fn main(rt: HostRuntime) -> anyhow::Result<()> {
    let word = env::args(&rt)?.nth(1);
    let is_client = word.as_ref().is_some_and(|word| word.as_str() == "ask");
    let serves = word.is_some() && !is_client;
    let addr = if is_client { CLIENT } else { SERVER };
    let mut memory = Memory::new(rt.alloc());
    let mut node = udp_plain(&mut memory, rt, &rt, addr)?;
    run(&rt, &mut node, serves)
}
