//! What threads share: rows make calls of a shared pool, a fan or a desk by hand, and compare what
//! they answer; and endpoints on threads of their own share a pool or a fan, of which is compared
//! what they answer and note, and what is left at the end. A line is printed for each row, the same
//! however the steps of the threads fall.
#![tactic(auto)]

mod borrowing;
mod caller;
mod checks;
mod desks;
mod fans;
mod lending;
mod sending;

use crate::checks::Checks;
use memory_count::Memory;
use std::io;

fn tell(rt: &impl Print, name: &str, checks: Checks) -> io::Result<()> {
    match checks.first() {
        None => println!(rt; "{name} ok"),
        Some(differs) => println!(rt; "{name}: {differs}"),
    }
}

fn main(rt: HostRuntime) -> io::Result<()> {
    let alloc = rt.alloc();
    let mut memory = Memory::new(alloc);
    tell(&rt, "a pool by hand", lending::row(&mut memory))?;
    tell(&rt, "a fan by hand", fans::row(&mut memory))?;
    tell(&rt, "a desk by hand", desks::row(&mut memory))?;
    tell(&rt, "a pool and four endpoints", borrowing::row(&rt, alloc))?;
    tell(&rt, "a fan and three endpoints", sending::row(&rt, alloc))
}
