//! A counter over UDP: a node that tells how many requests it served before asks itself three
//! times.
#![tactic(auto)]

mod counter;

use counter::{BYTES, Counter};
use erpc_lib::{Credits, Memory, udp_running};

const ADDR: &str = "127.0.0.1:47323";

/// It asks so many calls, and gives up after so many turns for each.
const CALLS: u32 = 3;

const TURNS: u32 = 1_000_000;

fn main(rt: HostRuntime) -> anyhow::Result<()> {
    let mut memory = Memory::new(rt.alloc());
    let mut node = udp_running(&mut memory, &rt, ADDR, Counter::new())?;
    let session = node.connect_within(ADDR, Credits::one(), TURNS)?;
    for _call in 0..CALLS {
        node.ask(session, 1, &[], BYTES)?;
        let done = node.wait_ended(TURNS)?;
        println!(rt; "{:?} {:?}", done.outcome, done.resp.bytes())?;
        node.give_back(done);
    }
    Ok(())
}
