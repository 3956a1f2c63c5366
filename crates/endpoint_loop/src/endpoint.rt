//! The endpoint: a node with a service and workers.
ghost use Rattle.std.specs.Prelude.{◌≡◌, ◌≤◌, [], length, IfOk, IfErr};
ghost use Rattle.std.specs.Borrow.{sem};
ghost use Rattle.std.specs.List.{find};
ghost use Rattle.rpc_laws.specs.Service.{rules_of};
ghost use Rattle.memory_count.specs.Faults.{HasCause};
ghost use Rattle.node_laws.specs.Kept.{Kept};
ghost use Rattle.rpc_base.specs.Limits.{Fits as InRange};
ghost use Rattle.rpc_laws.specs.Groups.{state_of};
ghost use Rattle.rpc_laws.specs.NodeLists.{new_node};
ghost use Rattle.rpc_laws.specs.Sessions.{is_client};
ghost use Rattle.node_steps.specs.Packets.{WorksFor};
ghost use Rattle.endpoint_loop.specs.Stands.{StandsFor};
ghost use Rattle.session_store.specs.Handing.{AreOfCalls};

mod calls;
mod poll;
mod senders;
mod sessions;
mod status;
mod strangers;
mod turn;

use endpoint_node::Node;
use memory_count::Memory;
use packet_header::Life;
pub use poll::{LinkFault, Turn};
use rpc_base::{Limits, NodeId, PEERS, SessionNo, SessionState};
use rpc_outside::Service;
use std::marker::Model;
pub use turn::MOST_ARRIVALS;
use worker_crew::Workers;

/// An endpoint of an application: its sessions, the service that answers requests, and the workers
/// that answer those in the background. Contracts see its lists and its clock as the definitions
/// over histories have them, with its service and its workers.
pub struct Endpoint<V: Service, W: Workers> {
    node: Node,
    service: V,
    workers: W,
    /// Where a session with each peer stood last.
    homes: [usize; PEERS],
}

// Written by hand, so that whoever lets an endpoint go makes a call, and proves nothing of its
// parts.
impl<V: Service + Drop, W: Workers + Drop> Drop for Endpoint<V, W> {
    fn drop(self) {
        let Endpoint {
            node: _node,
            service: _service,
            workers: _workers,
            homes: _,
        } = self;
    }
}

impl<V: Service, W: Workers> Model for Endpoint<V, W> {
    ghost use Rattle.node_steps.specs.Handed.{timed_of};
    ghost use Rattle.endpoint_loop.specs.Endpoints.{IsServing, Running};
    ghost use Rattle.rpc_laws.specs.Service.{rules_of};

    ghost Value = { Running V W };

    ghost view = { λ e. record {
      timed = timed_of e.node;
      handed = e.node.handed;
      service = e.service;
      workers = e.workers;
    } };

    ghost invariant = { λ e. IsServing (rules_of V.Service)
        (V.stands e.service) W.answer e.node.lists };
}

impl<V: Service, W: Workers> Endpoint<V, W> {
    /// Endpoint `me` in a life of 1 or more, with these limits, which are in their ranges, over
    /// workers to which no job was given, which take as many jobs, and which answer background
    /// requests as the service does. Its lists are empty, and it knows no life of a peer. The room
    /// for as many client sessions as the ring is long, those that are over included, and for as
    /// many server sessions that live is taken here. Where there is no memory for it, for the rings
    /// or for the pool the workers come back.
    pub fn new(
        memory: &mut Memory,
        me: NodeId,
        life: Life,
        limits: Limits,
        service: V,
        workers: W,
    ) -> Result<Endpoint<V, W>, W>
    where
        V: Drop,
        requires life { 1 ≤ life }
        requires limits { InRange limits }
        requires workers { (W.limit workers ≡ limits.jobs) × (W.given workers ≡ 0)
            × (W.out workers ≡ []) }
        requires works { WorksFor W.answer (rules_of V.Service) }
        requires service { V.stands service [] }
        ensures made { IfOk result (λ e. e ≡ record {
          timed = new_node me life limits;
          handed = [];
          service = service;
          workers = workers;
        }) }
        // It stands for no facts.
        ensures stands { IfOk result (λ e. StandsFor V.Service W.Workers limits [] e) }
        ensures wanting { IfErr result (λ back. back ≡ workers) }
        ensures cause { HasCause memory.old memory.new result }
    {
        let Ok(node) = Node::new(memory, me, life, limits) else {
            return Err(workers);
        };
        Ok(Endpoint {
            node,
            service,
            workers,
            homes: [0; PEERS],
        })
    }
}

impl<V: Service, W: Workers> Endpoint<V, W> {
    ghost use Rattle.endpoint_loop.specs.WorkersLoan.{lends_workers};

    /// The number of its node.
    pub fn me(&self) -> NodeId
        ensures { result ≡ self.now.timed.lists.me }
    {
        self.node.me()
    }

    /// How many numbers of client sessions were used: the number of the next one.
    pub fn next_client(&self) -> u32
        ensures { result ≡ length self.now.timed.lists.clients }
    {
        self.node.clients()
    }

    /// How many numbers of server sessions were used: the number of the next one.
    pub fn next_server(&self) -> u64
        ensures { result ≡ self.now.timed.lists.server_numbers }
    {
        self.node.server_numbers()
    }

    /// What always holds of its lists, and that what was handed in is of the calls in them.
    pub fn sound(&self)
        ensures kept { Kept self.now.timed.lists }
        ensures handed { AreOfCalls self.now.handed self.now.timed.lists.clients }
    {
        self.node.sound();
    }

    /// The state of a client session: Unknown where its number was never used.
    pub fn state(&self, session: SessionNo) -> SessionState
        ensures { result ≡ state_of (find (is_client session) self.now.timed.lists.clients) }
    {
        self.node.state(session)
    }

    /// Lends the workers.
    pub fn workers(&mut self) -> &mut W
        ensures* writes_back { sem 𝓛 (lends_workers V.row W.row V.Service W.Workers self.entry
            result) }
        ensures value { result.now ≡ self.old.workers }
    {
        &mut self.workers
    }

    /// Gives the workers out, with the jobs that they have.
    pub fn into_workers(self) -> W
    where
        V: Drop,
        ensures { result ≡ self.workers }
    {
        let Endpoint {
            node: _node,
            service: _service,
            workers,
            homes: _,
        } = self;
        workers
    }
}
