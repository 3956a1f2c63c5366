//! The parts that rows call, and how answers are told.
use crate::step::Step;
use memory_count::Memory;
use std::fmt::{Debug, Display};
use std::io;

/// A part of an endpoint.
pub trait Part {
    /// Makes a call, and tells what it answers.
    fn call<R: Print>(&mut self, rt: &R, memory: &mut Memory, step: Step) -> io::Result<()>;
}

/// Makes these calls of a part, one a line, and tells each with what it answers.
pub fn call_all<R: Print, P: Part>(
    rt: &R,
    memory: &mut Memory,
    part: &mut P,
    calls: &str,
) -> io::Result<()> {
    for line in calls.lines() {
        print!(rt; "  {line}: ")?;
        part.call(rt, memory, Step::read(line))?;
    }
    Ok(())
}

/// Tells an answer.
pub fn tell<R: Print, T: Display>(rt: &R, answer: &T) -> io::Result<()> {
    println!(rt; "{answer}")
}

/// Tells an answer as it is written in code.
pub fn tell_code<R: Print, T: Debug>(rt: &R, answer: &T) -> io::Result<()> {
    println!(rt; "{answer:?}")
}

/// Tells so many of so many.
pub fn tell_of(rt: &impl Print, count: u32, size: u32) -> io::Result<()> {
    println!(rt; "{count} of {size}")
}

/// A row calls what its part doesn't have.
pub fn tell_no_call(rt: &impl Print) -> io::Result<()> {
    println!(rt; "no such call")
}
