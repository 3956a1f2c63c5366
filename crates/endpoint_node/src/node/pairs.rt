//! Sessions that are connected from the start.
ghost use Rattle.node_steps.specs.Wants.{FitsServer, FitsClient};
ghost use Rattle.node_steps.specs.Changes.{◌⟶◌};
ghost use Rattle.node_steps.specs.Opens.{AddsClient, AddsServer, MakesClient, MakesServer};
ghost use Rattle.memory_count.specs.Faults.{HasCause, HasRisenBy};
ghost use Rattle.node_laws.specs.NodeRun.{IsCredits};
ghost use Rattle.node_steps.specs.Handed.{timed_of};
ghost use Rattle.std.specs.Prelude.{◌≡◌, ◌<◌, ◌≤◌, [], None, Some, length, IfErr, IfSome, IsSome};
ghost use Rattle.std.specs.Prelude.{IsOk, OnOk};
ghost use Rattle.node_steps.specs.Pairs.{PairsClient, PairsServer, Refuses};
ghost use Rattle.node_steps.specs.Notes.{Makes};
ghost use Rattle.rpc_base.specs.declared.event.Event.TheVariants.{PairedClient, PairedServer};
ghost use Rattle.rpc_laws.specs.Groups.{refusal_by};
ghost use Rattle.rpc_laws.specs.Steps.{NotesNext};
ghost use Rattle.session_mgmt.specs.Refusals.{lacks, refused};

use crate::node::Node;
use memory_count::{Memory, NoMemory};
use packet_header::Life;
use rpc_base::{Event, MOST_CREDITS, Peer, SESSION_NUMBERS, SessionNo, Who};
use rpc_laws::Pace;
use rpc_outside::Recorder;
use session_mgmt::ConnectError;

impl Node {
    // Whether there is room for a session with so many credits, where the numbers of its kind are
    // spent or not.
    pub(crate) fn room_for(&self, spent: bool, credits: u16) -> Result<(), ConnectError>
        requires credits { IsCredits credits }
        ensures accepted { OnOk result (refusal_by spent credits self.now.lists ≡ None) }
        ensures refused { IfErr result (λ why. refused why ≡ refusal_by spent credits
            self.now.lists) }
        ensures never_memory { IfErr result (λ why. IsSome (refused why)) }
    {
        if spent {
            return Err(ConnectError::NumbersSpent);
        }
        let (shares, ring) = (self.shares(), self.rx.size());
        if u64::from(ring) < u64::from(shares) + u64::from(credits) {
            return Err(ConnectError::RingFull {
                shares,
                credits: u32::from(credits),
                ring,
            });
        }
        Ok(())
    }

    // Notes why a session is refused.
    pub(crate) fn refuse<R: Recorder>(&self, why: &ConnectError, rec: &mut R)
        requires told { IsSome (refused why.now) }
        ensures { IfSome (refused why.now)
            (λ event. Makes R.log (Refuses event) (timed_of self.now) (timed_of self.now)
            rec.old rec.new) }
    {
        let event = match why {
            ConnectError::NumbersSpent => Event::NconnectNumbers,
            ConnectError::RingFull {
                shares,
                credits,
                ring,
            } => {
                Event::NconnectRing {
                    shares: *shares,
                    credits: *credits,
                    ring: *ring,
                }
            }
            ConnectError::NoMemory => unreachable!(),
        };
        rec.note(Who::Node(self.me), event, &[], &[]);
    }

    // The number of the next client session.
    pub(crate) fn next_client(&self) -> SessionNo
        requires few { length self.now.lists.clients < SESSION_NUMBERS }
        ensures { result ≡ length self.now.lists.clients }
    {
        SessionNo(self.store.clients() as u16)
    }

    // The client end is made, for which the node has room. Want of memory changes nothing, and
    // comes only where as many client sessions were made before as the ring is long.
    fn add_client<R: Recorder>(
        &mut self,
        memory: &mut Memory,
        peer: Peer,
        life: Life,
        server: SessionNo,
        credits: u16,
        rec: &mut R,
    ) -> Result<(), NoMemory>
        requires fits { FitsClient credits self.old }
        requires life { 1 ≤ life }
        requires server { server < SESSION_NUMBERS }
        ensures adds { AddsClient R.log (NotesNext (λ s. Some (PairedClient (length s.clients) peer
            server credits life))) result (self.old ⟶ self.new) (rec.old ⟶ rec.new) }
        ensures succeeds { length self.old.lists.clients < self.old.lists.room → IsOk result }
        ensures cause { HasCause memory.old memory.new result }
    {
        let session = self.next_client();
        let pace = Pace {
            session,
            rate: 0,
            next: 0,
        };
        // There is room for its pace before anything changes.
        memory.of(self.paces.reserve(1))?;
        self.store.pair_client(memory, peer, life, server, credits)?;
        self.paces.push(pace).unwrap();
        self.known.raise(peer, life);
        let event = Event::PairedClient {
            session,
            peer,
            server,
            credits,
            life: life.0,
        };
        rec.note(Who::Node(self.me), event, &[], &[]);
        Ok(())
    }

    // The server end is made, for which the node has room. Want of memory changes nothing.
    fn add_server<R: Recorder>(
        &mut self,
        memory: &mut Memory,
        peer: Peer,
        life: Life,
        client: SessionNo,
        credits: u16,
        rec: &mut R,
    ) -> Result<(), NoMemory>
        requires fits { FitsServer credits self.old }
        requires life { 1 ≤ life }
        requires client { client < SESSION_NUMBERS }
        ensures adds { AddsServer R.log (NotesNext (λ s. Some (PairedServer s.server_numbers peer
            client credits life))) result (self.old ⟶ self.new) (rec.old ⟶ rec.new) }
        ensures cause { HasCause memory.old memory.new result }
    {
        let session = SessionNo(self.server_numbers as u16);
        self.store
            .pair_server(memory, session, client, peer, life, credits)?;
        self.server_numbers += 1;
        self.known.raise(peer, life);
        let event = Event::PairedServer {
            session,
            peer,
            client,
            credits,
            life: life.0,
        };
        rec.note(Who::Node(self.me), event, &[], &[]);
        Ok(())
    }

    /// Makes the client end of a session with a peer that is connected from the start, with the
    /// next number and 1 to 256 credits. The other end has the number `server`, in the life `life`
    /// of its endpoint, 1 or more, which comes to be known. `NumbersSpent` comes exactly where
    /// 65,535 numbers of client sessions were used, then `RingFull` exactly where the credits of
    /// the live sessions and these are more than the ring is long; both are noted. `NoMemory` is
    /// noted nowhere, and comes only where as many client sessions were made before as the ring is
    /// long: the room for these was taken with the node. A refusal makes no session.
    pub fn pair_client<R: Recorder>(
        &mut self,
        memory: &mut Memory,
        peer: Peer,
        life: Life,
        server: SessionNo,
        credits: u16,
        rec: &mut R,
    ) -> Result<SessionNo, ConnectError>
        requires life { 1 ≤ life }
        requires server { server < SESSION_NUMBERS }
        requires credits { IsCredits credits }
        ensures makes { MakesClient R.log credits (PairsClient peer server credits life) result
            (self.old ⟶ self.new) (rec.old ⟶ rec.new) }
        ensures never_memory { length self.old.lists.clients < self.old.lists.room
            → IfErr result (λ why. IsSome (refused why)) }
        ensures cause { HasRisenBy (lacks result) memory.old memory.new }
    {
        let spent = usize::from(SESSION_NUMBERS) <= self.store.clients();
        if let Err(why) = self.room_for(spent, credits) {
            self.refuse(&why, rec);
            return Err(why);
        }
        let session = self.next_client();
        match self.add_client(memory, peer, life, server, credits, rec) {
            Ok(()) => Ok(session),
            Err(_) => Err(ConnectError::NoMemory),
        }
    }

    /// Makes the server end of a session with a peer that is connected from the start, with the
    /// next number and 1 to 256 credits. The other end has the number `client`, in the life `life`
    /// of its endpoint, 1 or more, which comes to be known. `NumbersSpent` comes exactly where
    /// 65,535 numbers of server sessions were used, then `RingFull` exactly where the credits of
    /// the live sessions and these are more than the ring is long; both are noted. `NoMemory` is
    /// noted nowhere. A refusal makes no session.
    pub fn pair_server<R: Recorder>(
        &mut self,
        memory: &mut Memory,
        peer: Peer,
        life: Life,
        client: SessionNo,
        credits: u16,
        rec: &mut R,
    ) -> Result<SessionNo, ConnectError>
        requires life { 1 ≤ life }
        requires client { client < SESSION_NUMBERS }
        requires credits { IsCredits credits }
        ensures makes { MakesServer R.log credits (PairsServer peer client credits life) result
            (self.old ⟶ self.new) (rec.old ⟶ rec.new) }
        ensures cause { HasRisenBy (lacks result) memory.old memory.new }
    {
        let spent = u64::from(SESSION_NUMBERS) <= self.server_numbers;
        if let Err(why) = self.room_for(spent, credits) {
            self.refuse(&why, rec);
            return Err(why);
        }
        let session = SessionNo(self.server_numbers as u16);
        match self.add_server(memory, peer, life, client, credits, rec) {
            Ok(()) => Ok(session),
            Err(_) => Err(ConnectError::NoMemory),
        }
    }
}
