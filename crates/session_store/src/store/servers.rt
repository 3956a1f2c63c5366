//! The server sessions: packets and the answers of workers.
ghost use Rattle.std.specs.Prelude.{◌≡◌, ◌<◌, ◌≤◌, ◌*◌, [], None, length, slice_get};
ghost use Rattle.std.specs.Prelude.{IfSome, IsOk};
ghost use Rattle.std.specs.List.{AllByRecursion, position};
ghost use Rattle.memory_count.specs.Faults.{HasCause, HasRisenBy};
ghost use Rattle.rpc_outside.specs.Served.{StandsForSome};
ghost use Rattle.message_buffer.specs.Buffer.{bytes_of};
ghost use Rattle.packet_header.specs.Parts.{IsMessage};
ghost use Rattle.rpc_laws.specs.ControlTable.{is_end_of, is_older};
ghost use Rattle.rpc_laws.specs.Requests.{is_server, server_end};
ghost use Rattle.server_core.specs.Lacks.{lacks_of};
ghost use Rattle.server_core.specs.Scene.{incoming};
ghost use Rattle.server_core.specs.Steps.{IsAsking};
ghost use Rattle.session_store.specs.Serving.{AreServedAt, CanReply, HandlesAt, in_store};
ghost use Rattle.session_store.specs.Changes.{IsEnd};
ghost use Rattle.session_store.specs.Leaving.{FinishesServer, MakesServer};

use super::Store;
use memory_count::{Memory, NoMemory};
use packet_header::{Life, MessageHeader};
use packet_rings::Entry;
use rpc_base::{MOST_CREDITS, NodeId, Peer, SESSION_NUMBERS, SessionNo, Who};
use rpc_outside::{Recorder, Service};
use server_core::{ServerSession, Step};
use session_ends::{ServerEnd, code_at, end_in, older_in, place_in, place_of, reply_of};
use worker_board::Parcel;

impl Store {
    /// How many server sessions there are.
    pub fn servers(&self) -> usize
        ensures { result ≡ length self.now.servers }
    {
        self.servers.len()
    }

    /// Where the server session with this number stands. None comes exactly where there is none.
    pub fn place_of_server(&self, number: SessionNo) -> Option<usize>
        ensures { result ≡ position (is_server number) self.now.servers }
    {
        place_of(&self.servers, number)
    }

    /// Where the first server session stands that is the other end of a client session that a peer
    /// has in this life. None comes exactly where there is none.
    pub fn place_of_end(&self, peer: Peer, client: SessionNo, life: Life) -> Option<usize>
        ensures { result ≡ position (is_end_of peer client life) self.now.servers }
    {
        end_in(&self.servers, &self.ends, peer, client, life)
    }

    /// Where the first server session stands that is of an older life of a peer than this one. None
    /// comes exactly where there is none; that is told in few steps.
    pub fn place_of_older(&self, peer: Peer, life: Life) -> Option<usize>
        ensures { result ≡ position (is_older peer life) self.now.servers }
    {
        older_in(&self.servers, &self.ends, peer, life)
    }

    /// What never changes of the server session at place `i`.
    pub fn end_of_server(&self, i: usize) -> ServerEnd
        requires known { i < length self.now.servers }
        ensures { IfSome (slice_get self.now.servers i) (IsEnd result) }
    {
        let server = &self.servers[i];
        ServerEnd {
            session: server.session(),
            peer: server.peer(),
            client: server.client(),
            life: server.life(),
            credits: server.credits(),
        }
    }

    /// The peer of the server session at place `i`.
    pub fn peer_of_server(&self, i: usize) -> Peer
        requires known { i < length self.now.servers }
        ensures { IfSome (slice_get self.now.servers i) (λ v. result ≡ v.way.peer) }
    {
        self.servers[i].peer()
    }

    /// A server session in which no request began is taken in: its number is above those of the
    /// others. `NoMemory` comes only where memory was refused, and never while there are fewer
    /// server sessions than half as many as packets have room in the ring; the session is gone
    /// then.
    pub fn take_server(
        &mut self,
        memory: &mut Memory,
        server: ServerSession,
    ) -> Result<(), NoMemory>
        requires fresh { server.slots ≡ [] }
        requires above { AllByRecursion (λ v. v.way.number < server.number) self.old.servers }
        ensures made { MakesServer (server_end server.number server.peer server.client
            server.credits server.life) result self.old self.new }
        ensures succeeds { 2 * length self.old.servers < self.old.size → IsOk result }
        ensures cause { HasCause memory.old memory.new result }
    {
        server.sound();
        let shares = self.shares_with(server.credits());
        let code = code_at(
            server.peer(),
            server.life(),
            server.client(),
            server.session(),
        );
        let place = place_in(&self.ends, code);
        // There is room for the session before anything changes.
        memory.of(self.servers.reserve(1))?;
        memory.of(self.ends.reserve(1))?;
        self.ends.insert(place, code).unwrap();
        self.servers.push(server).unwrap();
        self.shares = shares;
        Ok(())
    }

    /// A server session is made that is connected from the start, with 1 to 256 credits. Its number
    /// is above those of the others, the client's is below 65,535, and the life of the client's
    /// endpoint isn't 0. `NoMemory` comes only where memory was refused: for the slots' own buffers
    /// of the session, or as `take_server` answers it.
    pub fn pair_server(
        &mut self,
        memory: &mut Memory,
        number: SessionNo,
        client: SessionNo,
        peer: Peer,
        life: Life,
        credits: u16,
    ) -> Result<(), NoMemory>
        requires number { number < SESSION_NUMBERS }
        requires above { AllByRecursion (λ v. v.way.number < number) self.old.servers }
        requires client { client < SESSION_NUMBERS }
        requires alive { 1 ≤ life }
        requires some { 1 ≤ credits }
        requires most { credits ≤ MOST_CREDITS }
        ensures made { MakesServer (server_end number peer client credits life) result self.old
            self.new }
        ensures cause { HasCause memory.old memory.new result }
    {
        let server = ServerSession::new(memory, number, client, life, peer, credits)?;
        self.take_server(memory, server)
    }

    /// The server session at place `i` handles a Request or RFR as the node `me`, by the server
    /// table, and its facts are noted. Where a request begins, the queued replies to the older one
    /// of its slot are flushed. The reply is put behind what is ready. A parcel is to be given to a
    /// worker; `jobs_full` tells whether the node's jobs are full. Want of memory is a drop, after
    /// which the packet may come again.
    pub fn on_packet<V: Service, R: Recorder>(
        &mut self,
        memory: &mut Memory,
        i: usize,
        service: &mut V,
        head: &MessageHeader,
        body: &[u8],
        jobs_full: bool,
        me: NodeId,
        rec: &mut R,
    ) -> Step
        requires known { i < length self.old.servers }
        requires session { IfSome (slice_get self.old.servers i)
            (λ v. head.now.session ≡ v.way.number) }
        requires asking { IsAsking head.now (length body.now) }
        requires reply { CanReply self.old }
        requires all_served { AreServedAt V.mode_of i self.old.servers }
        requires founded { StandsForSome (V.stands service.old) }
        ensures handles { HandlesAt V.Service R.log me i (incoming head.now body.now jobs_full)
            result (in_store self.old service.old rec.old) (in_store self.new service.new rec.new) }
        ensures cause { HasRisenBy (lacks_of result) memory.old memory.new }
    {
        let server = &mut self.servers[i];
        let pool = &mut self.pool;
        let tx = &mut self.queue.tx;
        let who = Who::Node(me);
        let step = server.on_packet(memory, pool, tx, service, head, body, jobs_full, who, rec);
        server.sound();
        let Some(reply) = reply_of(&step) else {
            return step;
        };
        self.queue.tx.push(reply);
        step
    }

    /// A job of the server session at place `i` is finished, and its parcel has the answer, of at
    /// most 1,048,576 bytes. The reply to the request's last packet is put behind what is ready.
    /// None comes exactly where the request doesn't wait for the answer any more.
    pub fn on_finished(&mut self, i: usize, parcel: Parcel) -> Option<Entry>
        requires known { i < length self.old.servers }
        requires session { IfSome (slice_get self.old.servers i)
            (λ v. parcel.session ≡ v.way.number) }
        requires answer { IsMessage parcel.out.len }
        requires reply { CanReply self.old }
        ensures { FinishesServer i parcel.request (bytes_of parcel.out) result self.old self.new }
    {
        let server = &mut self.servers[i];
        let Some(entry) = server.on_finished(&mut self.pool, parcel) else {
            return None;
        };
        self.queue.tx.push(entry);
        Some(entry)
    }
}
