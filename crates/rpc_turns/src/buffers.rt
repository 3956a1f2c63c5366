//! The buffers of calls, which are used again.
ghost use Rattle.std.specs.Prelude.{◌≡◌, ◌≤◌, length, IfOk};
ghost use Rattle.memory_count.specs.Faults.{HasCause};
ghost use Rattle.message_buffer.specs.Buffer.{bytes_of, capacity_of};
ghost use Rattle.rpc_turns.specs.Buffers.{AreBuffersFor};

use client_core::Done;
use memory_count::{Memory, NoMemory};
use message_buffer::{MOST_CAPACITY, MsgBuf};
use rpc_base::MOST_MESSAGE_BYTES;
use std::alloc::Global;

/// The buffers of calls that are over, for further ones.
#[derive(Debug, Drop)]
pub struct Buffers {
    spare: Vec<(MsgBuf, MsgBuf)>,
}

// The buffer with these bytes, for which it has room.
fn filled(mut req: MsgBuf, ask: &[u8]) -> MsgBuf
    requires most { length ask.now ≤ MOST_MESSAGE_BYTES }
    requires room { length ask.now ≤ capacity_of req }
    ensures asks { bytes_of result ≡ ask.now }
    ensures len { result.len ≤ MOST_MESSAGE_BYTES }
{
    req.set_len(ask.len() as u32);
    req.write(0, ask);
    req
}

// New buffers.
fn made(memory: &mut Memory, ask: &[u8], room: u32) -> Result<(MsgBuf, MsgBuf), NoMemory>
    requires ask { length ask.now ≤ MOST_MESSAGE_BYTES }
    requires room { room ≤ MOST_CAPACITY }
    ensures buffers { IfOk result (λ b. AreBuffersFor ask.now room b.0 b.1) }
    ensures cause { HasCause memory.old memory.new result }
{
    let req = MsgBuf::new(memory, ask.len() as u32)?;
    let resp = MsgBuf::new(memory, room)?;
    Ok((filled(req, ask), resp))
}

impl Buffers {
    /// No buffers. Takes no memory.
    pub fn new(alloc: Global) -> Buffers {
        Buffers {
            spare: Vec::new(alloc),
        }
    }

    /// The buffers of a call that asks these bytes, at most 1,048,576, and whose answer may have
    /// `room` bytes, at most `MOST_CAPACITY`: those of a call that is over, where some are spare
    /// and they are large enough, or new ones. `NoMemory` comes only where there is none for them.
    pub fn pair(
        &mut self,
        memory: &mut Memory,
        ask: &[u8],
        room: u32,
    ) -> Result<(MsgBuf, MsgBuf), NoMemory>
        requires ask { length ask.now ≤ MOST_MESSAGE_BYTES }
        requires room { room ≤ MOST_CAPACITY }
        ensures buffers { IfOk result (λ b. AreBuffersFor ask.now room b.0 b.1) }
        ensures cause { HasCause memory.old memory.new result }
    {
        let Some((req, resp)) = self.spare.pop() else {
            return made(memory, ask, room);
        };
        if (req.capacity() as usize) < ask.len() || resp.capacity() != room {
            return made(memory, ask, room);
        }
        Ok((filled(req, ask), resp))
    }

    /// Keeps these buffers for a further call, as long as there is memory to.
    pub fn keep(&mut self, memory: &mut Memory, req: MsgBuf, resp: MsgBuf)
        ensures { memory.old ≤ memory.new }
    {
        let _kept = memory.push(&mut self.spare, (req, resp));
    }

    /// Keeps the buffers of a call that is over.
    pub fn give_back(&mut self, memory: &mut Memory, done: Done)
        ensures { memory.old ≤ memory.new }
    {
        let Done { req, resp, .. } = done;
        self.keep(memory, req, resp);
    }
}
