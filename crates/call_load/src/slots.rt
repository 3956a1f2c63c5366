//! The places of pending calls, and their buffers, which are used again and again.
ghost use Rattle.memory_count.specs.Faults.{HasCause};

use crate::aim::Aim;
use memory_count::{Memory, NoMemory};
use message_buffer::MsgBuf;
use rpc_base::SessionNo;

/// A call that may be asked: the number of its place, the session on which it is asked, and its two
/// buffers.
#[derive(Drop)]
pub struct Ready {
    pub place: u32,
    pub session: SessionNo,
    pub req: MsgBuf,
    pub resp: MsgBuf,
}

/// The calls that may be asked, and when each of the others was, in nanoseconds.
#[derive(Drop)]
pub struct Slots {
    ready: Vec<Ready>,
    since: Vec<u64>,
}

// The bytes that a call asks: the number of what it wants, or 0, 1, 2 .. modulo 256.
fn fill(bytes: &mut [u8], aim: &Aim) {
    let number = aim.size.to_be_bytes();
    'bytes: for (at, byte) in bytes.iter_mut().enumerate() {
        *byte = match aim.req_type {
            4 | 132 => number.get(at).copied().unwrap_or(0),
            _ => (at % 256) as u8,
        };
    }
}

fn buffers(memory: &mut Memory, aim: &Aim) -> Result<(MsgBuf, MsgBuf), NoMemory>
    ensures cause { HasCause memory.old memory.new result }
{
    let len = aim.asked_bytes();
    let mut req = MsgBuf::new(memory, len)?;
    req.set_len(len);
    fill(req.whole_mut(), aim);
    let resp = MsgBuf::new(memory, aim.answer_bytes())?;
    Ok((req, resp))
}

// The session of a place: places go round the sessions.
fn session_of(place: u32, aim: &Aim) -> SessionNo {
    SessionNo((place % u32::from(aim.sessions.max(1))) as u16)
}

impl Slots {
    /// A place for each call that may be pending, with its buffers.
    pub fn new(memory: &mut Memory, aim: &Aim) -> Result<Slots, NoMemory>
        ensures cause { HasCause memory.old memory.new result }
    {
        let mut ready = memory.list(aim.pending as usize)?;
        let mut since = Vec::new(memory.alloc());
        memory.of(since.resize(aim.pending as usize, 0))?;
        'places: for place in 0..aim.pending {
            let session = session_of(place, aim);
            let (req, resp) = buffers(memory, aim)?;
            let call = Ready {
                place,
                session,
                req,
                resp,
            };
            memory.push(&mut ready, call)?;
        }
        Ok(Slots { ready, since })
    }

    /// Takes a call out that may be asked.
    pub fn take(&mut self) -> Option<Ready> {
        self.ready.pop()
    }

    /// A call may be asked, again. There is room for each: none is lost.
    pub fn put(&mut self, ready: Ready) {
        let _kept = self.ready.push(ready);
    }

    /// The call of this place was asked at this time.
    pub fn set_since(&mut self, place: u32, time: u64) {
        if let Some(since) = self.since.get_mut(place as usize) {
            *since = time;
        }
    }

    /// When the call of this place was asked.
    pub fn since(&self, place: u32) -> u64 {
        self.since.get(place as usize).copied().unwrap_or(0)
    }
}
