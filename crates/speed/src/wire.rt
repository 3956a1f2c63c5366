//! A link in memory.
ghost use Rattle.std.specs.Prelude.{◌≤◌, ◌+◌, None, IfSome, length};
ghost use Rattle.memory_count.specs.Faults.{HasCause};

use memory_count::{Memory, NoMemory};
use rpc_base::Peer;
use rpc_outside::{Failed, Got, Link, MOST_LINK_BYTES, Taken};
use std::mem;

/// So many datagrams may be on their way in one direction.
const MOST_ON_THEIR_WAY: usize = 1_024;

/// A datagram on its way.
#[derive(Drop)]
struct Slot {
    bytes: [u8; MOST_LINK_BYTES],
    len: usize,
}

impl Slot {
    fn empty() -> Slot {
        Slot {
            bytes: [0; MOST_LINK_BYTES],
            len: 0,
        }
    }

    // Head and body become its datagram.
    fn write(&mut self, head: &[u8], body: &[u8])
        requires fits { length head.now + length body.now ≤ 2048 }
    {
        let len = head.len() + body.len();
        self.bytes[..head.len()].copy_from_slice(head);
        self.bytes[head.len()..len].copy_from_slice(body);
        self.len = len;
    }

    // Its datagram becomes the front of `out`; the result is its length.
    fn read(&self, out: &mut [u8; MOST_LINK_BYTES]) -> usize
        ensures { result ≤ 2048 }
    {
        let len = self.len.min(MOST_LINK_BYTES);
        out[..len].copy_from_slice(&self.bytes[..len]);
        len
    }
}

/// The datagrams that are on their way in one direction, the oldest at `next`.
#[derive(Drop)]
struct Way {
    slots: Vec<Slot>,
    next: usize,
    count: usize,
}

impl Way {
    fn new(memory: &mut Memory) -> Result<Way, NoMemory>
        ensures cause { HasCause memory.old memory.new result }
    {
        let mut slots = Vec::new(memory.alloc());
        memory.of(slots.resize_with(MOST_ON_THEIR_WAY, Slot::empty))?;
        Ok(Way {
            slots,
            next: 0,
            count: 0,
        })
    }

    // Whether there is room for one more.
    fn put(&mut self, head: &[u8], body: &[u8]) -> bool
        requires fits { length head.now + length body.now ≤ 2048 }
    {
        if self.count >= MOST_ON_THEIR_WAY {
            return false;
        }
        let place = self.next.wrapping_add(self.count) % MOST_ON_THEIR_WAY;
        let Some(slot) = self.slots.get_mut(place) else {
            return false;
        };
        slot.write(head, body);
        self.count += 1;
        true
    }

    // The oldest becomes the front of `out`; the result is its length.
    fn take(&mut self, out: &mut [u8; MOST_LINK_BYTES]) -> Option<usize>
        ensures { IfSome result (λ len. len ≤ 2048) }
    {
        if self.count == 0 {
            return None;
        }
        let len = self.slots.get(self.next)?.read(out);
        self.next = self.next.wrapping_add(1) % MOST_ON_THEIR_WAY;
        self.count -= 1;
        Some(len)
    }
}

/// One end of a link in memory. What it sends waits until it is carried to the other end.
#[derive(Drop)]
pub struct Wire {
    out: Way,
    incoming: Way,
    faults: u64,
    busies: u64,
}

impl Wire {
    /// An end to which nothing comes.
    pub fn new(memory: &mut Memory) -> Result<Wire, NoMemory>
        ensures cause { HasCause memory.old memory.new result }
    {
        Ok(Wire {
            out: Way::new(memory)?,
            incoming: Way::new(memory)?,
            faults: 0,
            busies: 0,
        })
    }

    /// What was sent here comes to the other end. Nothing comes while older datagrams wait there.
    pub fn move_to(&mut self, other: &mut Wire) {
        if other.incoming.count == 0 {
            mem::swap(&mut self.out, &mut other.incoming);
        }
    }
}

impl Link for Wire {
    ghost sent = { λ _. None };

    ghost received = { λ _. None };

    ghost waiting = { λ _. None };

    ghost bound = { λ _. None };

    ghost numbers = { λ _ _. None };

    ghost faults = { λ w. w.faults };

    ghost busies = { λ w. w.busies };

    fn bind(&mut self, _addr: &str) -> Result<(), Failed> {
        Ok(())
    }

    fn peer(&mut self, _addr: &str) -> Result<Peer, Failed> {
        Ok(Peer(0))
    }

    fn send(&mut self, _to: Peer, head: &[u8], body: &[u8]) -> Result<Taken, Failed> {
        if head.len() + body.len() > MOST_LINK_BYTES {
            self.faults = self.faults.saturating_add(1);
            return Err(Failed);
        }
        if self.out.put(head, body) {
            return Ok(Taken::Whole);
        }
        self.busies = self.busies.saturating_add(1);
        Ok(Taken::Busy)
    }

    fn recv(&mut self, out: &mut [u8; MOST_LINK_BYTES]) -> Result<Got, Failed> {
        match self.incoming.take(out) {
            Some(len) => Ok(Got::Packet { peer: Peer(0), len }),
            None => Ok(Got::Nothing),
        }
    }

    /// Keeps nothing back.
    fn flush(&mut self) {}

    /// Ends at once.
    fn wait(&mut self, _micros: u32) {}

    /// Sends each packet by itself.
    fn pack(&mut self, _peer: Peer, _bytes: u32) {}

    /// The number stays that of its address.
    fn forget(&mut self, _peer: Peer) {}
}
