//! The endpoint by itself: each row of a table drives endpoints over links in memory, and compares
//! what they answer, note and send with what the protocol says. A line is printed for each row.
//!
//! Then one endpoint is under datagrams that no honest peer sends. Standard input has rows: a line
//! `# NAME` begins one, with a fresh endpoint, node 1 in life 1 with a ring of 32, and each line
//! behind it is a step; LIFE is that of a session's other end. The name is printed, and then what
//! each step noted, as a report has it. A further row costs no proof.
//!
//! ```text
//! server PEER CLIENT CREDITS LIFE   client PEER SERVER CREDITS LIFE   connect PEER CREDITS
//! ask SESSION TYPE BYTES ROOM       deliver PEER BYTES                work JOB    poll NOW
//! ```
#![tactic(auto)]

mod act;
mod arrivals;
mod bench;
mod buffers;
mod counter;
mod differs;
mod hostile;
mod joint;
mod joint_tables;
mod kept;
mod links;
mod makers;
mod newest;
mod rows;
mod spelling;
mod step;
mod steps;
mod tables;
mod told;

use crate::differs::Differs;
use crate::tables::{IDLE, RATES, REFUSED_CALLS, REFUSED_PAIRS};
use std::io;

fn tell(rt: &impl Print, name: &str, outcome: Result<(), Differs>) -> io::Result<()> {
    match outcome {
        Ok(()) => println!(rt; "{name} ok"),
        Err(differs) => println!(rt; "{name}: {differs}"),
    }
}

fn main(rt: HostRuntime) -> io::Result<()> {
    let alloc = rt.alloc();
    tell(&rt, "an idle endpoint", rows::plain(alloc, &IDLE))?;
    tell(&rt, "a fault of the link", rows::fault(alloc))?;
    tell(&rt, "rates", rows::plain(alloc, &RATES))?;
    tell(&rt, "refused calls", rows::plain(alloc, &REFUSED_CALLS))?;
    tell(&rt, "refused pairs", rows::plain(alloc, &REFUSED_PAIRS))?;
    tell(&rt, "busy at each send", rows::busy(alloc))?;
    tell(&rt, "failing at each call", rows::failing(alloc))?;
    tell(&rt, "a fault in receiving", rows::receiving_fault(alloc))?;
    tell(&rt, "a service with state", rows::counted(alloc))?;
    tell(&rt, "tags and buffers", rows::tagged(alloc))?;
    tell(&rt, "turns", rows::turns(alloc))?;
    tell(&rt, "workers out of order", rows::newest_first(alloc))?;
    hostile::take_rows(&rt)
}
