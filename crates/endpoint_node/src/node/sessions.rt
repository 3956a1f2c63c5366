//! Sessions are opened and closed by the application.
ghost use Rattle.node_steps.specs.Wants.{FitsClient};
ghost use Rattle.node_steps.specs.Opens.{AddsClient, MakesClient};
ghost use Rattle.memory_count.specs.Faults.{HasCause, HasRisenBy};
ghost use Rattle.node_laws.specs.NodeRun.{IsCredits};
ghost use Rattle.node_steps.specs.Steps.{Steps};
ghost use Rattle.node_steps.specs.Changes.{◌⟶◌};
ghost use Rattle.std.specs.Prelude.{◌≡◌, ◌<◌, ◌++◌, [], ◌∷◌, Some, true, length, IfErr, OnErr};
ghost use Rattle.std.specs.Prelude.{IsOk, IsSome, OnOk};
ghost use Rattle.std.specs.List.{find};
ghost use Rattle.node_steps.specs.Pairs.{StartsRate};
ghost use Rattle.rpc_base.specs.declared.event.Event.TheVariants.{Closing, Opened};
ghost use Rattle.rpc_laws.specs.Groups.{Connects, Disconnects, disconnect_by};
ghost use Rattle.rpc_laws.specs.Groups.{pending as pending_of, state_of};
ghost use Rattle.rpc_laws.specs.Sessions.{is_client, is_connected as is_connected_in, is_live};
ghost use Rattle.rpc_laws.specs.Sessions.{opened_end};
ghost use Rattle.rpc_laws.specs.Steps.{NotesNext};
ghost use Rattle.session_mgmt.specs.Refusals.{closing, lacks, refused};

use crate::node::Node;
use memory_count::{Memory, NoMemory};
use rpc_base::{Event, MOST_CREDITS, Peer, SESSION_NUMBERS, SessionNo, SessionState, Who};
use rpc_laws::Pace;
use rpc_outside::Recorder;
use session_mgmt::{CloseError, ConnectError};

// Whether a session in this state is connected, also where it takes no more calls.
fn is_connected(state: SessionState) -> bool
    ensures { result ≡ is_connected_in state }
{
    match state {
        SessionState::Connected => true,
        SessionState::Spent => true,
        _ => false,
    }
}

impl Node {
    // The next client session is opened, for which the node has room. Want of memory changes
    // nothing, and comes only where as many sessions were made before as the ring is long.
    fn open_client<R: Recorder>(
        &mut self,
        memory: &mut Memory,
        peer: Peer,
        credits: u16,
        rec: &mut R,
    ) -> Result<(), NoMemory>
        requires { FitsClient credits self.old }
        ensures adds { AddsClient R.log (NotesNext (λ s. Some (Opened (length s.clients) peer
            credits))) result (self.old ⟶ self.new) (rec.old ⟶ rec.new) }
        ensures clients { OnOk result (self.new.lists.clients ≡ self.old.lists.clients
            ++ opened_end (length self.old.lists.clients) peer credits ∷ []) }
        ensures me { self.new.lists.me ≡ self.old.lists.me }
        ensures succeeds { length self.old.lists.clients < self.old.lists.room → IsOk result }
        ensures cause { HasCause memory.old memory.new result }
    {
        let session = self.next_client();
        let pace = Pace {
            session,
            rate: 0,
            next: 0,
        };
        // There is room for its pace before anything changes.
        memory.of(self.paces.reserve(1))?;
        self.store.open(memory, peer, credits)?;
        self.paces.push(pace).unwrap();
        self.callers.enter(session.0);
        let event = Event::Opened {
            session,
            peer,
            credits,
        };
        rec.note(Who::Node(self.me), event, &[], &[]);
        Ok(())
    }

    // A live session gets its first rate, in bytes per millisecond, where that isn't 0.
    fn start_rate<R: Recorder>(&mut self, session: SessionNo, rate: u32, rec: &mut R)
        requires live { is_live (state_of (find (is_client session)
            self.old.lists.clients)) ≡ true }
        ensures { Steps R.log (StartsRate session rate) (self.old ⟶ self.new) (rec.old ⟶ rec.new) }
    {
        if rate == 0 {
            return;
        }
        let _rated = self.set_rate(session, rate, rec);
    }

    /// Opens a session to a peer with the next number, 1 to 256 credits and a rate in bytes per
    /// millisecond: its packets are paced, or not where that is 0. It is Connecting, and its
    /// request to connect goes out in the next poll. `NumbersSpent` comes exactly where 65,535
    /// numbers of client sessions were used, then `RingFull` exactly where the credits of the live
    /// sessions and these are more than the ring is long; both are noted. `NoMemory` is noted
    /// nowhere, and comes only where as many client sessions were made before as the ring is long:
    /// the room for these was taken with the node. A refusal opens no session.
    pub fn connect<R: Recorder>(
        &mut self,
        memory: &mut Memory,
        peer: Peer,
        credits: u16,
        rate: u32,
        rec: &mut R,
    ) -> Result<SessionNo, ConnectError>
        requires credits { IsCredits credits }
        ensures makes { MakesClient R.log credits (Connects peer credits rate) result
            (self.old ⟶ self.new) (rec.old ⟶ rec.new) }
        ensures never_memory { length self.old.lists.clients < self.old.lists.room
            → IfErr result (λ why. IsSome (refused why)) }
        ensures cause { HasRisenBy (lacks result) memory.old memory.new }
    {
        let spent = usize::from(SESSION_NUMBERS) <= self.store.clients();
        if let Err(why) = self.room_for(spent, credits) {
            self.refuse(&why, rec);
            return Err(why);
        }
        let session = self.next_client();
        match self.open_client(memory, peer, credits, rec) {
            Ok(()) => {
                self.start_rate(session, rate, rec);
                Ok(session)
            }
            Err(_) => Err(ConnectError::NoMemory),
        }
    }

    // A session that is connected and has no calls begins to close.
    fn begin_closing<R: Recorder>(&mut self, session: SessionNo, rec: &mut R)
        requires connected { is_connected_in (state_of (find (is_client session)
            self.old.lists.clients)) ≡ true }
        requires idle { pending_of (find (is_client session) self.old.lists.clients) ≡ 0 }
        ensures { Steps R.log (NotesNext (λ s. Some (Closing session))) (self.old ⟶ self.new)
            (rec.old ⟶ rec.new) }
    {
        self.store.closing(usize::from(session.0));
        self.callers.enter(session.0);
        rec.note(Who::Node(self.me), Event::Closing { session }, &[], &[]);
    }

    /// Begins to close a client session: its request to disconnect goes out in the next poll.
    /// `NotConnected` comes exactly where it is neither Connected nor Spent, with its state; then
    /// `Busy` exactly where calls are pending, those that wait included, with their number. Both
    /// are noted, and change nothing. It takes no memory.
    pub fn disconnect<R: Recorder>(
        &mut self,
        session: SessionNo,
        rec: &mut R,
    ) -> Result<(), CloseError>
        ensures step { Steps R.log (Disconnects session) (self.old ⟶ self.new) (rec.old ⟶ rec.new) }
        ensures accepted { OnOk result (disconnect_by
            (state_of (find (is_client session) self.old.lists.clients)) session
            (pending_of (find (is_client session) self.old.lists.clients)) ≡ Closing session) }
        ensures refused { IfErr result (λ why. closing session why ≡ disconnect_by
            (state_of (find (is_client session) self.old.lists.clients)) session
            (pending_of (find (is_client session) self.old.lists.clients))) }
        ensures unchanged { OnErr result (self.new ≡ self.old) }
    {
        let state = self.state(session);
        if !is_connected(state) {
            rec.note(
                Who::Node(self.me),
                Event::NcloseState { session, state },
                &[],
                &[],
            );
            return Err(CloseError::NotConnected { state });
        }
        let calls = self.pending(session);
        if calls != 0 {
            rec.note(
                Who::Node(self.me),
                Event::NcloseBusy { session, calls },
                &[],
                &[],
            );
            return Err(CloseError::Busy { calls });
        }
        self.begin_closing(session, rec);
        Ok(())
    }
}
