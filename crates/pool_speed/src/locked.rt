//! A pool behind one lock.
use crate::{CAPACITY, Crowd, PLACES};
use memory_count::{Memory, NoMemory};
use message_buffer::MsgBuf;
use std::sync::{Mutex, Wait};
use std::thread;
use std::thread::Threads;

type Shelf = Mutex<Vec<MsgBuf>>;

fn shelf(memory: &mut Memory) -> Result<Shelf, NoMemory> {
    let mut buffers = memory.list(PLACES as usize)?;
    for _place in 0..PLACES {
        let buffer = MsgBuf::new(memory, CAPACITY)?;
        memory.push(&mut buffers, buffer)?;
    }
    Ok(Mutex::new(buffers))
}

fn take<R: Wait>(rt: &R, shelf: &Shelf) -> Option<MsgBuf> {
    let mut buffers = shelf.lock(rt);
    buffers.pop()
}

fn put<R: Wait>(rt: &R, shelf: &Shelf, buffer: MsgBuf) {
    let mut buffers = shelf.lock(rt);
    let _kept = buffers.push(buffer);
}

/// Borrows and gives back so many times. Tells how often there was a buffer.
fn borrow_often<R: Wait>(rt: &R, shelf: &Shelf, times: u32) -> u64 {
    let mut lent: u64 = 0;
    for _time in 0..times {
        if let Some(buffer) = take(rt, shelf) {
            put(rt, shelf, buffer);
            lent = lent.wrapping_add(1);
        }
    }
    lent
}

fn borrow_by_two<R: Threads + Wait + Sync>(rt: &R, shelf: &Shelf, times: u32) -> u64 {
    let (first, second) = thread::join(
        rt,
        || borrow_often(rt, shelf, times),
        || borrow_often(rt, shelf, times),
    );
    first.wrapping_add(second)
}

fn borrow_by_four<R: Threads + Wait + Sync>(rt: &R, shelf: &Shelf, times: u32) -> u64 {
    let (first, second) = thread::join(
        rt,
        || borrow_by_two(rt, shelf, times),
        || borrow_by_two(rt, shelf, times),
    );
    first.wrapping_add(second)
}

/// Each of so many threads borrows and gives back so many times. Tells how often there was a
/// buffer.
pub fn borrow<R: Threads + Wait + Sync>(
    memory: &mut Memory,
    rt: &R,
    crowd: Crowd,
    times: u32,
) -> Result<u64, NoMemory> {
    let shelf = shelf(memory)?;
    Ok(match crowd {
        Crowd::One => borrow_often(rt, &shelf, times),
        Crowd::Two => borrow_by_two(rt, &shelf, times),
        Crowd::Four => borrow_by_four(rt, &shelf, times),
    })
}
