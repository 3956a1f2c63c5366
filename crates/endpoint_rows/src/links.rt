//! Links in memory.
ghost use Rattle.memory_count.specs.Faults.{HasCause};
ghost use Rattle.rpc_outside.specs.Linking.{AreCarried};

use memory_count::{Memory, NoMemory};
use rpc_base::{Octets, Peer};
use rpc_outside::MemLink;

/// More datagrams than a row sends.
const ROOM: u32 = 256;

/// A link that takes all.
pub fn sound_link(memory: &mut Memory) -> Result<MemLink, NoMemory>
    ensures cause { HasCause memory.old memory.new result }
{
    let alloc = memory.alloc();
    let none = Vec::new(alloc);
    MemLink::new(memory, Vec::new(alloc), ROOM, none, Vec::new(alloc))
}

/// A link of which this call fails, the first call having number 0.
pub fn failing_link(memory: &mut Memory, call: u64) -> Result<MemLink, NoMemory>
    ensures cause { HasCause memory.old memory.new result }
{
    let alloc = memory.alloc();
    let fails = memory.copied(&[call])?;
    MemLink::new(memory, Vec::new(alloc), ROOM, fails, Vec::new(alloc))
}

/// A link that is busy at this send, the first having number 0.
pub fn busy_link(memory: &mut Memory, send: u64) -> Result<MemLink, NoMemory>
    ensures cause { HasCause memory.old memory.new result }
{
    let alloc = memory.alloc();
    let busy = memory.copied(&[send])?;
    MemLink::new(memory, Vec::new(alloc), ROOM, Vec::new(alloc), busy)
}

/// A link to which these datagrams come, and of which these calls fail, the first call having
/// number 0.
pub fn giving_link(
    memory: &mut Memory,
    arrivals: Vec<(Peer, Octets)>,
    fails: Vec<u64>,
) -> Result<MemLink, NoMemory>
    requires carried { AreCarried arrivals.items }
    ensures cause { HasCause memory.old memory.new result }
{
    let none = Vec::new(memory.alloc());
    MemLink::new(memory, arrivals, ROOM, fails, none)
}
