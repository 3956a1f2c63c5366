//! The sessions that a poll visits: `enter N`, `leave N` and `next N`.
use crate::no_memory;
use crate::part::{Part, call_all, tell_code, tell_no_call};
use crate::step::Step;
use calling_sessions::CallingSessions;
use memory_count::Memory;
use std::io;

/// Tells which session is next at each `next`, from no session on.
pub fn drive(rt: &impl Print, memory: &mut Memory, calls: &str) -> io::Result<()> {
    let mut sessions = CallingSessions::new(memory).map_err(no_memory)?;
    call_all(rt, memory, &mut sessions, calls)
}

impl Part for CallingSessions {
    fn call<R: Print>(&mut self, rt: &R, _memory: &mut Memory, step: Step) -> io::Result<()> {
        match step.name {
            "enter" => {
                self.enter(step.short(0));
                println!(rt; "entered")
            }
            "leave" => {
                self.leave(step.short(0));
                println!(rt; "left")
            }
            "next" => tell_code(rt, &self.next(step.short(0))),
            _ => tell_no_call(rt),
        }
    }
}
