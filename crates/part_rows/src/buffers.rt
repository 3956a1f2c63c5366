//! A message's buffer: `len N` makes the message so long, `write AT HEX` and `fill BYTE` write into
//! it, `stamp I BYTE` gives packet I a head of sixteen such bytes, and `packet I` and `bytes` show
//! them.
use crate::no_memory;
use crate::part::{Part, call_all, tell_code, tell_no_call, tell_of};
use crate::step::Step;
use memory_count::Memory;
use message_buffer::{MOST_CAPACITY, MsgBuf};
use packet_header::count;
use rpc_base::HEAD_BYTES;
use std::io;

/// Makes a buffer of this capacity, and tells what each call of it answers.
pub fn drive(rt: &impl Print, memory: &mut Memory, capacity: u32, calls: &str) -> io::Result<()> {
    if MOST_CAPACITY < capacity {
        return println!(rt; "no such buffer");
    }
    let mut buffer = MsgBuf::new(memory, capacity).map_err(no_memory)?;
    call_all(rt, memory, &mut buffer, calls)
}

fn set_len(rt: &impl Print, buffer: &mut MsgBuf, len: u32) -> io::Result<()> {
    if buffer.capacity() < len {
        return println!(rt; "too long");
    }
    buffer.set_len(len);
    tell_of(rt, buffer.len(), buffer.capacity())
}

fn write(rt: &impl Print, memory: &Memory, buffer: &mut MsgBuf, step: Step) -> io::Result<()> {
    let Ok(bytes) = hex::decode(memory.alloc(), step.word(1)) else {
        return println!(rt; "no bytes");
    };
    let at = step.long(0);
    let len = buffer.len();
    if len < at || ((len - at) as usize) < bytes.len() {
        return println!(rt; "too long");
    }
    buffer.write(at, bytes.as_slice());
    println!(rt; "written")
}

fn stamp(rt: &impl Print, buffer: &mut MsgBuf, index: u32, byte: u8) -> io::Result<()> {
    if count(buffer.len()) <= index {
        return println!(rt; "no such packet");
    }
    buffer.stamp(index, &[byte; HEAD_BYTES]);
    println!(rt; "stamped")
}

// The head, the length of the part, and its last two bytes.
fn tell_packet(rt: &impl Print, memory: &Memory, buffer: &MsgBuf, index: u32) -> io::Result<()> {
    if count(buffer.len()) <= index {
        return println!(rt; "no such packet");
    }
    let (head, part) = buffer.packet(index);
    let tail = part.get(part.len().saturating_sub(2)..).unwrap_or(part);
    println!(rt;
        "{} {} bytes to {tail:?}",
        hex::encode(memory.alloc(), head)?,
        part.len()
    )
}

impl Part for MsgBuf {
    fn call<R: Print>(&mut self, rt: &R, memory: &mut Memory, step: Step) -> io::Result<()> {
        match step.name {
            "len" => set_len(rt, self, step.long(0)),
            "write" => write(rt, memory, self, step),
            "fill" => {
                self.whole_mut().fill(step.byte(0));
                println!(rt; "filled")
            }
            "stamp" => stamp(rt, self, step.long(0), step.byte(1)),
            "packet" => tell_packet(rt, memory, self, step.long(0)),
            "bytes" => tell_code(rt, &self.bytes()),
            _ => tell_no_call(rt),
        }
    }
}
