//! Calls are asked, and datagrams delivered.
ghost use Rattle.node_steps.specs.Changes.{◌⟶◌};
ghost use Rattle.endpoint_loop.specs.Calls.{Calls};
ghost use Rattle.session_store.specs.Handing.{HandsInAt};
ghost use Rattle.std.specs.Prelude.{◌≡◌, ◌<◌, Some, IfOk, OnErr};
ghost use Rattle.std.specs.List.{find};
ghost use Rattle.endpoint_loop.specs.Endpoints.{Leaves};
ghost use Rattle.node_steps.specs.Asks.{IfWanting, IsAskedAs, UnlessWanting, refusal_of};
ghost use Rattle.node_steps.specs.Deliveries.{delivered_as};
ghost use Rattle.node_steps.specs.Notes.{Makes};
ghost use Rattle.message_buffer.specs.Buffer.{bytes_of, capacity_of};
ghost use Rattle.rpc_laws.specs.Deliveries.{Delivers};
ghost use Rattle.rpc_laws.specs.Groups.{Asks, state_of};
ghost use Rattle.rpc_laws.specs.Sessions.{is_client};
ghost use Rattle.endpoint_loop.specs.Stands.{GoesOn};
ghost use Rattle.node_steps.specs.Lacks.{lacks_asked};
ghost use Rattle.memory_count.specs.Faults.{HasRisenBy};

use crate::endpoint::Endpoint;
use endpoint_node::{Delivery, Refused};
use memory_count::Memory;
use message_buffer::MsgBuf;
use rpc_base::{CallNo, Peer, SessionNo};
use rpc_outside::{Recorder, Service};
use worker_crew::Workers;

impl<V: Service, W: Workers> Endpoint<V, W> {
    /// Asks a call on a client session. Its number counts the accepted calls of the endpoint from
    /// 0, `tag` is the application's own name for it, and the answer goes into `resp`, whose
    /// capacity is the call's room. A refusal hands both buffers back, and changes nothing.
    pub fn ask<R: Recorder>(
        &mut self,
        memory: &mut Memory,
        session: SessionNo,
        req_type: u8,
        req: MsgBuf,
        resp: MsgBuf,
        tag: u64,
        rec: &mut R,
    ) -> Result<CallNo, Refused>
        ensures asks { UnlessWanting result (Makes R.log (Asks session req_type
            (bytes_of req) (capacity_of resp)) self.old.timed self.new.timed rec.old rec.new) }
        ensures asked { IsAskedAs (refusal_of req.len (state_of (find (is_client session)
            self.old.timed.lists.clients))) self.old.timed.lists.asked req resp result }
        ensures leaves { Leaves self.old self.new }
        ensures goes_on { GoesOn R.log V.Service W.Workers self.old self.new rec.old rec.new }
        ensures unchanged { OnErr result (self.new ≡ self.old) }
        ensures wanting { IfWanting result (rec.new ≡ rec.old) }
        ensures handed { IfOk result (λ call. HandsInAt session (record {
          call = call;
          tag = tag;
          req = Some req;
          room = capacity_of resp;
        }) self.old.handed self.new.handed) }
        ensures cause { HasRisenBy (lacks_asked result) memory.old memory.new }
    {
        self.node
            .ask(memory, session, req_type, req, resp, tag, rec)
    }

    /// Takes a datagram from a peer: it is copied into the receive ring where it is a packet of a
    /// call, and into the inbox where it is a control packet. Bad comes exactly where it is no
    /// packet, and tells why; then Full exactly where the ring, or for a control packet the inbox,
    /// is full.
    pub fn deliver<R: Recorder>(&mut self, peer: Peer, bytes: &[u8], rec: &mut R) -> Delivery
        ensures call { Calls R.log V.Service W.Workers (Delivers peer bytes.now)
            (self.old ⟶ self.new) (rec.old ⟶ rec.new) }
        ensures answered { result ≡ delivered_as self.old.timed.lists bytes.now }
    {
        self.node.deliver(peer, bytes, rec)
    }
}
