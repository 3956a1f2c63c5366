//! Message buffers.
use crate::differs::Differs;
use memory_count::Memory;
use message_buffer::{MOST_CAPACITY, MsgBuf};

/// A buffer with so many zeros, which are no more than one may have.
pub fn zeros(memory: &mut Memory, len: u32) -> Result<MsgBuf, Differs> {
    if MOST_CAPACITY < len {
        return Err(Differs::Step);
    }
    let mut buf = MsgBuf::new(memory, len)?;
    buf.set_len(len);
    Ok(buf)
}

/// A buffer with these bytes, which are no more than one may have.
pub fn asking(memory: &mut Memory, bytes: &[u8]) -> Result<MsgBuf, Differs> {
    if (MOST_CAPACITY as usize) < bytes.len() {
        return Err(Differs::Step);
    }
    let len = bytes.len() as u32;
    let mut buf = MsgBuf::new(memory, len)?;
    buf.set_len(len);
    buf.write(0, bytes);
    Ok(buf)
}
