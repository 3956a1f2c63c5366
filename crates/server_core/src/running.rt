//! The buffers of a request and of its answer, made before anything else changes: the want of
//! memory leaves all as it was.
ghost use Rattle.std.specs.Prelude.{◌≡◌, ◌≢◌, ◌<◌, ◌≤◌, ◌↔◌, IsTrue, length, IfOk, OnErr};
ghost use Rattle.message_buffer.specs.Buffer.{capacity_of};
ghost use Rattle.memory_count.specs.Faults.{HasCause};
ghost use Rattle.rpc_outside.specs.declared.service.Mode.TheVariants.{Unserved};
ghost use Rattle.rpc_outside.specs.Served.{Served};
ghost use Rattle.server_core.specs.Reusing.{IsOwn, IsRoom, size_in};
ghost use Rattle.server_core.specs.Serving.{IsFirstPart};
ghost use Rattle.packet_header.specs.Parts.{IsMessage};

use memory_count::{Memory, NoMemory};
use message_buffer::MsgBuf;
use rpc_base::{MOST_MESSAGE_BYTES, PART_BYTES};
use rpc_outside::Service;

/// A buffer for a message of this size, which begins with these bytes.
pub(crate) fn make_message(memory: &mut Memory, size: u32, first: &[u8]) -> Result<MsgBuf, NoMemory>
    requires size { IsMessage size }
    requires first { length first.now ≤ size }
    ensures message { IfOk result (IsFirstPart size first.now) }
    ensures cause { HasCause memory.old memory.new result }
{
    let mut message = MsgBuf::new(memory, size)?;
    message.set_len(size);
    message.write(0, first);
    Ok(message)
}

/// A buffer as long as the answer of a type that is served.
pub(crate) fn make_room<V: Service>(
    memory: &mut Memory,
    service: &V,
    req_type: u8,
    ask: &[u8],
) -> Result<MsgBuf, NoMemory>
    requires served { V.mode_of req_type ≢ Unserved }
    requires message { length ask.now ≤ MOST_MESSAGE_BYTES }
    ensures message { IfOk result (λ b. IsMessage b.len × (b.len ≤ capacity_of b)) }
    ensures room { IfOk result (λ b. (served : Served) → V.stands service.now served →
        length (V.answer served req_type ask.now) ≡ b.len) }
    ensures cause { HasCause memory.old memory.new result }
{
    make_answer(memory, service.room(req_type, ask))
}

/// Where the answer to a request that is handled inline is written.
#[derive(Drop)]
pub enum Room {
    /// In the slot's own buffer: one of this size, no more than a part.
    Own(u32),
    /// In a buffer that was made for it, as long as it.
    Made(MsgBuf),
}

impl Room {
    /// The room for an answer of this size. `NoMemory` comes only where it is longer than a part
    /// and there is no memory for it.
    pub fn of(memory: &mut Memory, size: u32) -> Result<Room, NoMemory>
        requires { IsMessage size }
        ensures room { IfOk result IsRoom }
        ensures size { IfOk result (λ room. size_in room ≡ size) }
        ensures long { OnErr result (PART_BYTES < size) }
        ensures cause { HasCause memory.old memory.new result }
    {
        if size <= PART_BYTES {
            return Ok(Room::Own(size));
        }
        let answer = make_answer(memory, size)?;
        Ok(Room::Made(answer))
    }

    /// How long an answer it is for.
    pub fn size(&self) -> u32
        ensures { result ≡ size_in self.now }
    {
        match self {
            Room::Own(size) => *size,
            Room::Made(answer) => answer.len(),
        }
    }

    /// Whether the answer is to stand in the slot's own buffer.
    pub fn is_own(&self) -> bool
        ensures { IsTrue result ↔ IsOwn self.now }
    {
        matches!(self, Room::Own(_))
    }
}

/// A buffer for an answer of this size.
pub(crate) fn make_answer(memory: &mut Memory, size: u32) -> Result<MsgBuf, NoMemory>
    requires { IsMessage size }
    ensures room { IfOk result (λ b. (b.len ≡ size) × (size ≤ capacity_of b)) }
    ensures cause { HasCause memory.old memory.new result }
{
    let mut answer = MsgBuf::new(memory, size)?;
    answer.set_len(size);
    Ok(answer)
}
