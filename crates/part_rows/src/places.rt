//! The places of a pool of five, as buffers come and go. Which calls may be made a program can't
//! ask of a pool, so these stand here and not in the rows.
ghost use Rattle.std.specs.Prelude.{◌≡◌, ◌<◌, ◌+◌};
ghost use Rattle.buffer_pool.specs.Pool.{IsFull, refs_of, spare_of};

use crate::no_memory;
use buffer_pool::{BufferPool, Held};
use memory_count::Memory;
use message_buffer::MsgBuf;
use rpc_base::Place;
use std::io;

/// The capacity of the buffer in a place, in bytes.
const CAPACITY: u32 = 5;

const PLACES: u32 = 5;

// Puts a buffer into a place, and tells which.
fn put(pool: &mut BufferPool, buf: MsgBuf) -> Place
    requires spare { 0 < spare_of pool.old }
    ensures full { IsFull pool.new result }
    ensures free { refs_of pool.new result ≡ 0 }
{
    pool.put(buf)
}

// Holds a place once more.
fn hold(pool: &mut BufferPool, place: Place)
    requires full { IsFull pool.old place }
    requires few { refs_of pool.old place < 2 }
    ensures full { IsFull pool.new place }
    ensures refs { refs_of pool.new place ≡ refs_of pool.old place + 1 }
{
    pool.hold(place);
}

// Releases a place once.
fn release(pool: &mut BufferPool, place: Place)
    requires full { IsFull pool.old place }
    requires refs { 0 < refs_of pool.old place }
    ensures full { IsFull pool.new place }
    ensures refs { refs_of pool.new place + 1 ≡ refs_of pool.old place }
{
    pool.release(place);
}

// Tries to take the buffer of a place that is held.
fn take_held(pool: &mut BufferPool, place: Place) -> Held
    requires full { IsFull pool.old place }
    requires refs { 0 < refs_of pool.old place }
    ensures { pool.new ≡ pool.old }
{
    match pool.take(place) {
        Err(held) => held,
        Ok(_buf) => unreachable!(),
    }
}

// Tries to lend the buffer of a place that is held.
fn lend_held(pool: &mut BufferPool, place: Place) -> Held
    requires full { IsFull pool.old place }
    requires refs { 0 < refs_of pool.old place }
    ensures { pool.new ≡ pool.old }
{
    match pool.lend(place) {
        Err(held) => held,
        Ok(_buf) => unreachable!(),
    }
}

// A place that is held twice gives its buffer after two releases.
fn hold_twice(rt: &impl Print, memory: &mut Memory, pool: &mut BufferPool) -> io::Result<()> {
    let buf = MsgBuf::new(memory, CAPACITY).map_err(no_memory)?;
    if pool.spare() == 0 {
        return println!(rt; "  no place");
    }
    let place = put(pool, buf);
    hold(pool, place);
    hold(pool, place);
    let (twice, lent) = (take_held(pool, place), lend_held(pool, place));
    release(pool, place);
    let once = take_held(pool, place);
    release(pool, place);
    let Ok(buf) = pool.take(place) else {
        unreachable!()
    };
    println!(rt; "  held twice, take: {twice}")?;
    println!(rt; "  held twice, lend: {lent}")?;
    println!(rt; "  released, take: {once}")?;
    println!(rt;
        "  released, take: {} bytes, {} spare",
        buf.capacity(),
        pool.spare()
    )
}

// A lent place is full again once its buffer is restored.
fn restore(rt: &impl Print, memory: &mut Memory, pool: &mut BufferPool) -> io::Result<()> {
    let buf = MsgBuf::new(memory, CAPACITY).map_err(no_memory)?;
    if pool.spare() == 0 {
        return println!(rt; "  no place");
    }
    let place = pool.put(buf);
    let Ok(buf) = pool.lend(place) else {
        unreachable!()
    };
    let spare = pool.spare();
    pool.restore(place, buf);
    println!(rt;
        "  lent: {spare} spare, restored: {} bytes",
        pool.get(place).capacity()
    )
}

// A lent place is empty once it is forgotten.
fn forget(rt: &impl Print, memory: &mut Memory, pool: &mut BufferPool) -> io::Result<()> {
    let buf = MsgBuf::new(memory, CAPACITY).map_err(no_memory)?;
    if pool.spare() == 0 {
        return println!(rt; "  no place");
    }
    let place = pool.put(buf);
    let Ok(_buf) = pool.lend(place) else {
        unreachable!()
    };
    let spare = pool.spare();
    pool.forget(place);
    println!(rt; "  lent: {spare} spare, forgotten: {} spare", pool.spare())
}

// A buffer is written where it is.
fn write_in_place(rt: &impl Print, memory: &mut Memory, pool: &mut BufferPool) -> io::Result<()> {
    let buf = MsgBuf::new(memory, CAPACITY).map_err(no_memory)?;
    if pool.spare() == 0 {
        return println!(rt; "  no place");
    }
    let place = pool.put(buf);
    let buf = pool.get_mut(place);
    if buf.capacity() < CAPACITY {
        return println!(rt; "  a smaller buffer");
    }
    buf.set_len(2);
    buf.write(0, &[7, 8]);
    println!(rt; "  written: {:?}", pool.get(place).bytes())
}

// A buffer comes into the lowest empty place.
fn fill(rt: &impl Print, memory: &mut Memory, pool: &mut BufferPool) -> io::Result<()> {
    let first = MsgBuf::new(memory, 0).map_err(no_memory)?;
    let second = MsgBuf::new(memory, 0).map_err(no_memory)?;
    if pool.spare() == 0 {
        return println!(rt; "  no place");
    }
    let low = pool.put(first);
    if pool.spare() == 0 {
        return println!(rt; "  one place");
    }
    let high = pool.put(second);
    let full = pool.spare();
    let Ok(buf) = pool.take(high) else {
        unreachable!()
    };
    let emptied = pool.spare();
    if emptied == 0 {
        return println!(rt; "  no place");
    }
    let again = pool.put(buf);
    println!(rt; "  put: place {} and {}, {full} spare", low.0, high.0)?;
    println!(rt; "  taken: {emptied} spare, put: place {}", again.0)
}

/// Tells what each call answers, the groups one after another.
pub fn tell(rt: &impl Print, memory: &mut Memory) -> io::Result<()> {
    let mut pool = BufferPool::new(memory, PLACES).map_err(no_memory)?;
    call_all(rt, memory, &mut pool)
}

fn call_all(rt: &impl Print, memory: &mut Memory, pool: &mut BufferPool) -> io::Result<()> {
    hold_twice(rt, memory, pool)?;
    restore(rt, memory, pool)?;
    forget(rt, memory, pool)?;
    write_in_place(rt, memory, pool)?;
    fill(rt, memory, pool)
}
