//! What an endpoint has, beside its service and its workers.
ghost use Rattle.std.specs.Prelude.{◌≡◌, ◌≤◌, [], IfOk};
ghost use Rattle.node_steps.specs.Handed.{holding};
ghost use Rattle.memory_count.specs.Faults.{HasCause};
ghost use Rattle.node_laws.specs.Kept.{Kept};
ghost use Rattle.rpc_base.specs.Limits.{Fits as InRange};
ghost use Rattle.rpc_laws.specs.Groups.{shares};
ghost use Rattle.rpc_laws.specs.NodeLists.{new_node};
ghost use Rattle.session_store.specs.Handing.{AreOfCalls};

mod callers;
mod calls;
mod delivery;
mod due;
mod pairs;
mod peers;
mod rates;
mod sessions;
mod status;

use calling_sessions::CallingSessions;
use memory_count::{Memory, NoMemory};
use node_steps::{Inbox, JobName, KnownLives};
use packet_header::Life;
use packet_rings::RxRing;
use rpc_base::{Limits, NodeId};
use rpc_laws::{Counted, Pace};
use session_store::Store;
use std::collections::VecDeque;
use std::marker::Model;

// The places that the eight calls or requests of a session name, two each.
const PLACES_OF_SESSION: u32 = 16;

// A job that is out may need so many for its answer.
const PLACES_OF_JOB: u32 = 2;

/// The lists of a node, with its sessions on one pool and one transmit ring. Contracts see them as
/// the definitions over histories have them. The steps of a poll, in the crates above, work on its
/// fields: who changes one proves that what always holds of them still does (`Fits` and `Covers` of
/// `node_steps`, whose parts are named here). An endpoint has its node in a private field.
pub struct Node {
    /// Its number. No rule speaks of it.
    pub me: NodeId,
    /// 1 or more: `alive`.
    pub life: Life,
    /// The greatest known life of each peer. No rule speaks of it.
    pub known: KnownLives,
    /// What it was made with. At least one job may be out: `jobs`.
    pub limits: Limits,
    // How many calls were accepted: as many as its sessions count, by `kept`.
    asked: u64,
    /// How many numbers of server sessions were used: no more than there are, by `server_numbers`.
    /// No server session has a number that is still to come: `kept`.
    pub server_numbers: u64,
    /// Each stops at 2^64 - 1. No rule speaks of them.
    pub counts: Counted,
    /// The pace of each client session, in the place of its number: `paces` and `each`. There is
    /// room for as many as the receive ring is long.
    pub paces: Vec<Pace>,
    /// How many jobs were given so far. No rule speaks of it.
    pub given: u64,
    /// The jobs that are out, in order of giving, by which no request may run twice: `kept`. There
    /// is room for as many as the limit says.
    pub jobs: VecDeque<JobName>,
    /// In microseconds. No rule speaks of it.
    pub clock: u64,
    /// The receive ring. It has packets of calls, by `kept`, and `most` bounds its places.
    pub rx: RxRing,
    /// The control packets that wait. No rule speaks of them but the inbox's own.
    pub inbox: Inbox,
    /// The sessions and what they have queued, of which `kept` and the other rules speak. It has
    /// room for the packets and the buffers that they may have: `packets` and `buffers`.
    pub store: Store,
    // Among them is each client session that has calls or a request of its own (`Covers`), so that
    // a poll looks at no other.
    callers: CallingSessions,
}

// Written by hand, so that whoever lets an endpoint go makes a call, and proves nothing of its
// parts.
impl Drop for Node {
    fn drop(self) {
        let Node {
            me: _,
            life: _,
            known: _known,
            limits: _,
            asked: _,
            server_numbers: _,
            counts: _,
            paces: _paces,
            given: _,
            jobs: _jobs,
            clock: _,
            rx: _rx,
            inbox: _inbox,
            store: _store,
            callers: _callers,
        } = self;
    }
}

impl Model for Node {
    ghost use Rattle.node_steps.specs.Callers.{Covers};
    ghost use Rattle.node_steps.specs.Fits.{Fits};
    ghost use Rattle.node_steps.specs.Handed.{Holding, holding};
    ghost use Rattle.node_steps.specs.Seen.{jobs_in, seen_node};
    ghost use Rattle.std.specs.Prelude.{◌≤◌, vec_capacity};
    ghost use Rattle.std.specs.VecDeque.{deque_capacity};

    ghost Value = { Holding };

    ghost view = { λ n. holding n.store.handed (seen_node n.me n.limits (record {
      life = n.life;
      known = n.known;
      asked = n.asked;
      server_numbers = n.server_numbers;
      inbox = n.inbox;
      counts = n.counts;
    }) n.paces.items (jobs_in n.limits.jobs n.given n.jobs.items) n.clock n.rx
        n.store) };

    ghost invariant = { λ n. Fits (seen_node n.me n.limits (record {
      life = n.life;
      known = n.known;
      asked = n.asked;
      server_numbers = n.server_numbers;
      inbox = n.inbox;
      counts = n.counts;
    }) n.paces.items (jobs_in n.limits.jobs n.given n.jobs.items) n.clock n.rx
        n.store) n.store.size n.store.places
        × ((n.limits.jobs ≤ deque_capacity n.jobs) × (n.rx.size ≤ vec_capacity n.paces))
        × Covers n.callers n.store.clients };
}

impl Node {
    /// Node `me` in a life of 1 or more, with these limits, which are in their ranges. Its lists
    /// are empty. `NoMemory` comes where there is no memory for its rings, its inbox, its pool and
    /// as many sessions of each kind as the receive ring is long.
    pub fn new(
        memory: &mut Memory,
        me: NodeId,
        life: Life,
        limits: Limits,
    ) -> Result<Node, NoMemory>
        requires life { 1 ≤ life }
        requires limits { InRange limits }
        ensures made { IfOk result (λ n. n ≡ holding [] (new_node me life limits)) }
        ensures cause { HasCause memory.old memory.new result }
    {
        let places = PLACES_OF_SESSION * limits.ring + PLACES_OF_JOB * limits.jobs;
        Ok(Node {
            me,
            life,
            known: KnownLives::new(),
            limits,
            asked: 0,
            server_numbers: 0,
            counts: Counted {
                ran: 0,
                given: 0,
                dropped: 0,
                overflowed: 0,
            },
            paces: memory.list(limits.ring as usize)?,
            given: 0,
            jobs: memory.queue(limits.jobs as usize)?,
            clock: 0,
            rx: RxRing::new(memory, limits.ring)?,
            inbox: Inbox::new(memory)?,
            store: Store::new(memory, limits.ring, places)?,
            callers: CallingSessions::new(memory)?,
        })
    }

    /// What always holds of the lists of a node holds of this one's.
    pub fn sound(&self)
        ensures kept { Kept self.now.lists }
        ensures handed { AreOfCalls self.now.handed self.now.lists.clients }
    {
        self.store.sound();
    }

    /// The credits of its live sessions.
    pub fn shares(&self) -> u32
        ensures shares { result ≡ shares self.now.lists }
        ensures within { result ≤ self.now.lists.room }
    {
        self.sound();
        let _room = self.rx.size();
        self.store.shares()
    }
}
