//! Sessions are paired, opened and closed by the application, and get their rates.
ghost use Rattle.node_steps.specs.Changes.{◌⟶◌};
ghost use Rattle.endpoint_loop.specs.Calls.{Calls, OpensClient, OpensServer};
ghost use Rattle.std.specs.Prelude.{◌≡◌, ◌<◌, ◌≤◌, IfErr, OnErr, OnOk};
ghost use Rattle.std.specs.List.{find};
ghost use Rattle.node_steps.specs.Pairs.{PairsClient, PairsServer};
ghost use Rattle.node_steps.specs.Rates.{RatedAs};
ghost use Rattle.rpc_laws.specs.Groups.{SetsRate, state_of, Connects, Disconnects, disconnect_by};
ghost use Rattle.rpc_laws.specs.Groups.{pending as pending_of};
ghost use Rattle.rpc_laws.specs.Sessions.{is_client};
ghost use Rattle.session_mgmt.specs.Refusals.{refused, closing};
ghost use Rattle.rpc_base.specs.declared.event.Event.TheVariants.{Closing};

use crate::endpoint::Endpoint;
use memory_count::Memory;
use packet_header::Life;
use rpc_base::{MOST_CREDITS, Peer, SESSION_NUMBERS, SessionNo, SessionState};
use rpc_outside::{Recorder, Service};
use session_mgmt::{CloseError, ConnectError};
use worker_crew::Workers;

impl<V: Service, W: Workers> Endpoint<V, W> {
    /// Makes the client end of a session with a peer that is connected from the start, with the
    /// next number and 1 to 256 credits. The other end has the number `server`, in the life `life`
    /// of its endpoint, 1 or more, which comes to be known. `NumbersSpent` comes exactly where
    /// 65,535 numbers of client sessions were used, then `RingFull` exactly where the credits of
    /// the live sessions and these are more than the ring is long; both are noted. `NoMemory` is
    /// noted nowhere, and comes only where as many client sessions were made before as the ring is
    /// long: the room for these was taken with the endpoint. A refusal makes no session.
    pub fn pair_client<R: Recorder>(
        &mut self,
        memory: &mut Memory,
        peer: Peer,
        life: Life,
        server: SessionNo,
        credits: u16,
        rec: &mut R,
    ) -> Result<SessionNo, ConnectError>
        requires life { 1 ≤ life }
        requires server { server < SESSION_NUMBERS }
        requires some { 1 ≤ credits }
        requires most { credits ≤ MOST_CREDITS }
        ensures { OpensClient R.log V.Service W.Workers credits
            (PairsClient peer server credits life) result (self.old ⟶ self.new)
            (rec.old ⟶ rec.new) (memory.old ⟶ memory.new) }
    {
        self.node
            .pair_client(memory, peer, life, server, credits, rec)
    }

    /// Makes the server end of a session with a peer that is connected from the start, with the
    /// next number and 1 to 256 credits. The other end has the number `client`, in the life `life`
    /// of its endpoint, 1 or more, which comes to be known. `NumbersSpent` comes exactly where
    /// 65,535 numbers of server sessions were used, then `RingFull` exactly where the credits of
    /// the live sessions and these are more than the ring is long; both are noted. `NoMemory` is
    /// noted nowhere. A refusal makes no session.
    pub fn pair_server<R: Recorder>(
        &mut self,
        memory: &mut Memory,
        peer: Peer,
        life: Life,
        client: SessionNo,
        credits: u16,
        rec: &mut R,
    ) -> Result<SessionNo, ConnectError>
        requires life { 1 ≤ life }
        requires client { client < SESSION_NUMBERS }
        requires some { 1 ≤ credits }
        requires most { credits ≤ MOST_CREDITS }
        ensures { OpensServer R.log V.Service W.Workers credits
            (PairsServer peer client credits life) result (self.old ⟶ self.new)
            (rec.old ⟶ rec.new) (memory.old ⟶ memory.new) }
    {
        self.node
            .pair_server(memory, peer, life, client, credits, rec)
    }

    /// Opens a session to a peer with the next number, 1 to 256 credits and a rate in bytes per
    /// millisecond: its packets are paced, or not where that is 0. It is Connecting, and its
    /// request to connect goes out in the next poll. `NumbersSpent` comes exactly where 65,535
    /// numbers of client sessions were used, then `RingFull` exactly where the credits of the live
    /// sessions and these are more than the ring is long; both are noted. `NoMemory` is noted
    /// nowhere, and comes only where as many client sessions were made before as the ring is long:
    /// the room for these was taken with the endpoint. A refusal opens no session.
    pub fn connect<R: Recorder>(
        &mut self,
        memory: &mut Memory,
        peer: Peer,
        credits: u16,
        rate: u32,
        rec: &mut R,
    ) -> Result<SessionNo, ConnectError>
        requires some { 1 ≤ credits }
        requires most { credits ≤ MOST_CREDITS }
        ensures { OpensClient R.log V.Service W.Workers credits (Connects peer credits rate) result
            (self.old ⟶ self.new) (rec.old ⟶ rec.new) (memory.old ⟶ memory.new) }
    {
        self.node.connect(memory, peer, credits, rate, rec)
    }

    /// Begins to close a client session: its request to disconnect goes out in the next poll.
    /// `NotConnected` comes exactly where it is neither Connected nor Spent, with its state; then
    /// `Busy` exactly where calls are pending, those that wait included, with their number. Both
    /// are noted, and change nothing. It takes no memory.
    pub fn disconnect<R: Recorder>(
        &mut self,
        session: SessionNo,
        rec: &mut R,
    ) -> Result<(), CloseError>
        ensures call { Calls R.log V.Service W.Workers (Disconnects session) (self.old ⟶ self.new)
            (rec.old ⟶ rec.new) }
        ensures accepted { OnOk result (disconnect_by
            (state_of (find (is_client session) self.old.timed.lists.clients)) session
            (pending_of (find (is_client session) self.old.timed.lists.clients))
            ≡ Closing session) }
        ensures refused { IfErr result (λ why. closing session why ≡ disconnect_by
            (state_of (find (is_client session) self.old.timed.lists.clients)) session
            (pending_of (find (is_client session) self.old.timed.lists.clients))) }
        ensures unchanged { OnErr result (self.new ≡ self.old) }
    {
        self.node.disconnect(session, rec)
    }

    /// Sets the rate of a client session, in bytes per millisecond: its packets are paced from now
    /// on, or not where it is 0. Those that are queued keep their times. Err comes exactly where
    /// the session isn't live, with its state, and then nothing changed.
    pub fn set_rate<R: Recorder>(
        &mut self,
        session: SessionNo,
        rate: u32,
        rec: &mut R,
    ) -> Result<(), SessionState>
        ensures call { Calls R.log V.Service W.Workers (SetsRate session rate) (self.old ⟶ self.new)
            (rec.old ⟶ rec.new) }
        ensures rated { RatedAs (state_of (find (is_client session)
            self.old.timed.lists.clients)) result }
        ensures unchanged { OnErr result (self.new ≡ self.old) }
    {
        self.node.set_rate(session, rate, rec)
    }
}
