//! The sessions of an endpoint, with the pool, the ring and the pacer that they share.
ghost use Rattle.std.specs.Prelude.{◌≡◌, ◌<◌, ◌*◌, IfOk};
ghost use Rattle.memory_count.specs.Faults.{HasCause};
ghost use Rattle.session_store.specs.Sides.{no_sessions};

mod clients;
mod control;
mod ending;
mod queue;
mod servers;
mod shares;
mod timers;

use buffer_pool::BufferPool;
pub use control::OwnRequests;
use memory_count::{Memory, NoMemory};
use pacing_wheel::Pacer;
use packet_rings::TxRing;
use rpc_base::MOST_REFERENCES;
use server_core::ServerSession;
use session_ends::{Queue, Side};
use std::marker::Model;

/// All sessions, one pool for the buffers of their calls and requests, and one queue for their
/// packets: a ring for what is ready, and behind it a pacer for what has a time when it is due.
/// Contracts see the sessions and the queue as the definitions over histories have them. A client
/// session's number is its place; server sessions stand in the order of their numbers. The lists
/// have room for half as many sessions of each kind as the ring for packets. A server session that
/// ends leaves its room to the next one; a client session keeps it, as it keeps its number.
#[derive(Drop)]
pub struct Store {
    pool: BufferPool,
    queue: Queue,
    sides: Vec<Side>,
    servers: Vec<ServerSession>,
    // The credits of the live sessions.
    shares: u32,
    // The codes of the server sessions, in rising order.
    ends: Vec<u128>,
}

impl Model for Store {
    ghost use Rattle.session_ends.specs.EndOrder.{EndOrder};
    ghost use Rattle.session_ends.specs.Joined.{Paces, joined};
    ghost use Rattle.session_store.specs.Joined.{shown_with};
    ghost use Rattle.session_store.specs.Sides.{CountsShares, HasSessionRoom, Kept, Shown};
    ghost use Rattle.session_store.specs.Sides.{shown_side};
    ghost use Rattle.server_core.specs.Shown.{shown, way_of};
    ghost use Rattle.std.specs.Prelude.{map, vec_capacity};

    ghost Value = { Shown };

    ghost view = { λ s. shown_with s.pool s.sides.items s.servers.items s.queue.tx s.queue.pacer };

    ghost invariant = { λ s. Kept s.pool s.sides.items s.servers.items
        (joined s.queue.tx s.queue.pacer)
        × Paces s.queue.tx s.queue.pacer
        × CountsShares s.shares (map (shown_side s.pool) s.sides.items)
        (map (shown s.pool) s.servers.items)
        × EndOrder s.ends.items (map way_of s.servers.items)
        × HasSessionRoom s.queue.tx.size (vec_capacity s.sides) (vec_capacity s.servers)
        (vec_capacity s.ends) };
}

impl Store {
    /// A store with no session, whose ring has room for twice `ring` packets, fewer than 2^32 - 1,
    /// and whose pacer for `ring`; its pool has so many places. The room for `ring` sessions of
    /// each kind is taken here. `NoMemory` comes only where memory was refused.
    pub fn new(memory: &mut Memory, ring: u32, places: u32) -> Result<Store, NoMemory>
        requires few { 2 * ring < MOST_REFERENCES }
        ensures made { IfOk result (λ s. s ≡ no_sessions (2 * ring) places) }
        ensures cause { HasCause memory.old memory.new result }
    {
        let pool = BufferPool::new(memory, places)?;
        let tx = TxRing::new(memory, 2 * ring)?;
        let pacer = Pacer::new(memory, ring)?;
        let sides = memory.list(ring as usize)?;
        let servers = memory.list(ring as usize)?;
        let ends = memory.list(ring as usize)?;
        Ok(Store {
            pool,
            queue: Queue { tx, pacer },
            sides,
            servers,
            shares: 0,
            ends,
        })
    }
}
