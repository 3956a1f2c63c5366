//! The slots of a session: `wait CALL`, `begin`, `of REQUEST`, `end REQUEST`, `drain` and `newest`.
//! A call has its number and 100 as its tag.
use crate::no_memory;
use crate::part::{Part, call_all, tell_code, tell_no_call};
use crate::step::Step;
use memory_count::{Memory, NoMemory};
use message_buffer::MsgBuf;
use rpc_base::{CallNo, MOST_CALLS, RequestNo};
use session_slots::{SlotTable, Waiting};
use std::io;

/// What is added to the number of a call in its tag.
const TAGS: u64 = 100;

/// Tells what each call answers, from eight free slots on.
pub fn drive(rt: &impl Print, memory: &mut Memory, calls: &str) -> io::Result<()> {
    let mut table = SlotTable::new(memory.alloc());
    call_all(rt, memory, &mut table, calls)
}

// A call with two empty buffers.
fn make_call(memory: &mut Memory, call: u32) -> Result<Waiting, NoMemory> {
    let req = MsgBuf::new(memory, 0)?;
    let resp = MsgBuf::new(memory, 0)?;
    Ok(Waiting {
        call: CallNo(u64::from(call)),
        tag: TAGS + u64::from(call),
        req_type: 1,
        req,
        resp,
    })
}

fn wait(rt: &impl Print, memory: &mut Memory, table: &mut SlotTable, call: u32) -> io::Result<()> {
    if table.taken() == MOST_CALLS {
        return println!(rt; "no more calls");
    }
    let waiting = make_call(memory, call).map_err(no_memory)?;
    let waits = table.wait(memory, waiting).is_ok();
    println!(rt; "{waits}, {} taken", table.taken())
}

// The number of a request that begins, and its call.
fn begin(table: &mut SlotTable) -> Option<(u64, u64)> {
    let (request, waiting) = table.begin()?;
    Some((request.get(), waiting.call.0))
}

fn end(rt: &impl Print, table: &mut SlotTable, request: RequestNo) -> io::Result<()> {
    if table.call_of(request).is_none() {
        return println!(rt; "not active");
    }
    table.end(request);
    println!(rt; "ended")
}

fn request_of(number: u32) -> RequestNo {
    RequestNo::of((number % 8) as u8, u64::from(number / 8))
}

impl Part for SlotTable {
    fn call<R: Print>(&mut self, rt: &R, memory: &mut Memory, step: Step) -> io::Result<()> {
        let request = request_of(step.long(0));
        match step.name {
            "wait" => wait(rt, memory, self, step.long(0)),
            "begin" => tell_code(rt, &begin(self)),
            "of" => tell_code(rt, &self.call_of(request).map(|call| call.0)),
            "end" => end(rt, self, request),
            "drain" => tell_code(rt, &self.drain().map(|waiting| waiting.tag)),
            "newest" => tell_code(rt, &self.newest().map(|waiting| waiting.tag)),
            _ => tell_no_call(rt),
        }
    }
}
