//! The slots' own buffers.
ghost use Rattle.std.specs.Prelude.{◌≡◌, ◌<◌, [], true, length, slice_set, IfOk, None, Some};
ghost use Rattle.memory_count.specs.Faults.{HasCause};
ghost use Rattle.message_buffer.specs.Buffer.{Buffer, capacity_of};
ghost use Rattle.server_core.specs.Homes.{AreHome, HasOwn, brought, home_of};

use memory_count::{Memory, NoMemory};
use message_buffer::MsgBuf;
use rpc_base::PART_BYTES;
use std::marker::Model;

const SLOTS: usize = 8;

/// Each slot's own buffer, which has room for the part of one packet, while it is at home.
/// Contracts see the list of these.
#[derive(Drop)]
pub struct Homes {
    buffers: Vec<Option<MsgBuf>>,
}

impl Model for Homes {
    ghost use Rattle.std.specs.Prelude.{List, Option};
    ghost use Rattle.message_buffer.specs.Buffer.{Buffer};

    ghost Value = { List (Option Buffer) };

    ghost view = { λ h. h.buffers.items };
}

impl Homes {
    /// All of them, at home. `NoMemory` comes only where there is no memory for them.
    pub fn new(memory: &mut Memory) -> Result<Homes, NoMemory>
        ensures home { IfOk result (λ homes. AreHome homes []) }
        ensures cause { HasCause memory.old memory.new result }
    {
        let mut buffers = memory.list(SLOTS)?;
        for _slot in 0..SLOTS {
            let buffer = MsgBuf::new(memory, PART_BYTES)?;
            memory.push(&mut buffers, Some(buffer))?;
        }
        Ok(Homes { buffers })
    }

    /// Takes a slot's own buffer, which has to be at home.
    pub fn lend(&mut self, slot: u8) -> MsgBuf
        requires slot { slot < length self.old }
        requires home { HasOwn true (home_of self.old slot) }
        ensures homes { self.new ≡ slice_set self.old slot None }
        ensures own { home_of self.old slot ≡ Some result }
    {
        match self.buffers[usize::from(slot)].take() {
            Some(buffer) => buffer,
            None => unreachable!(),
        }
    }

    /// A slot's own buffer comes home, if it was out.
    pub fn bring(&mut self, slot: u8, own: Option<MsgBuf>)
        requires { slot < length self.old }
        ensures { self.new ≡ brought slot own self.old }
    {
        if let Some(buffer) = own {
            self.buffers[usize::from(slot)] = Some(buffer);
        }
    }
}
