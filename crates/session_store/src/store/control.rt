//! Client sessions are opened, connected and closed.
ghost use Rattle.std.specs.Prelude.{◌≡◌, ◌<◌, ◌≤◌, ◌+◌, ◌*◌, ◌^◌, ◌++◌, [], ◌∷◌, length};
ghost use Rattle.std.specs.Prelude.{slice_get, IfSome, IsOk};
ghost use Rattle.memory_count.specs.Faults.{HasCause};
ghost use Rattle.rpc_base.specs.declared.state.SessionState.TheVariants.{Closed, Closing};
ghost use Rattle.rpc_base.specs.declared.state.SessionState.TheVariants.{Connecting, Failed};
ghost use Rattle.rpc_laws.specs.Sessions.{comes_to, connects, opened_end};
ghost use Rattle.session_store.specs.Changes.{HasNoCalls, HasRequest, IsConnected};
ghost use Rattle.session_store.specs.Changes.{IsClientEnd, IsInState, sent_again};
ghost use Rattle.session_store.specs.Leaving.{ChangesClient};
ghost use Rattle.session_store.specs.OwnRequests.{CountsRequests};
ghost use Rattle.session_store.specs.Leaving.{MakesClient};

use super::Store;
use client_core::ClientSession;
use memory_count::{Memory, NoMemory};
use packet_header::{FIRST_LIFE, Life};
use rpc_base::{MOST_CREDITS, Peer, SESSION_NUMBERS, SessionNo};
use session_ends::{ClientEnd, Side, Stage};

/// The requests of its own that a client session sent.
#[derive(Clone, Copy, Debug)]
pub struct OwnRequests {
    pub sends: u64,
    /// The clock, in microseconds, when the last of them was sent.
    pub sent_at: u64,
}

impl Store {
    /// A client session is opened to a peer, with 1 to 256 credits: it is Connecting, and its
    /// number is its place. `NoMemory` comes only where memory was refused, and never while there
    /// are fewer client sessions than half as many as packets have room in the ring, those that are
    /// over included.
    pub fn open(&mut self, memory: &mut Memory, peer: Peer, credits: u16) -> Result<(), NoMemory>
        requires numbers { length self.old.clients < SESSION_NUMBERS }
        requires some { 1 ≤ credits }
        requires most { credits ≤ MOST_CREDITS }
        ensures made { MakesClient (opened_end (length self.old.clients) peer credits) result
            self.old self.new }
        ensures succeeds { 2 * length self.old.clients < self.old.size → IsOk result }
        ensures cause { HasCause memory.old memory.new result }
    {
        let shares = self.shares_with(credits);
        let number = SessionNo(self.sides.len() as u16);
        // The server's number and its life aren't known yet, and aren't shown.
        let session = ClientSession::new(
            memory.alloc(),
            number,
            SessionNo(0),
            Life(FIRST_LIFE),
            credits,
        );
        let side = Side {
            peer,
            stage: Stage::Connecting {
                sends: 0,
                sent_at: 0,
            },
            session,
        };
        // There is room for the session before anything changes.
        memory.of(self.sides.reserve(1))?;
        self.sides.push(side).unwrap();
        self.shares = shares;
        Ok(())
    }

    /// Session `i`, which is Connecting, is connected with a server session, whose number is below
    /// 65,535, in this life of the server's endpoint, which isn't 0.
    pub fn connected(&mut self, i: usize, server: SessionNo, life: Life)
        requires known { i < length self.old.clients }
        requires connecting { IsInState Connecting (slice_get self.old.clients i) }
        requires server { server < SESSION_NUMBERS }
        requires alive { 1 ≤ life }
        ensures { ChangesClient i (connects server life) self.old self.new }
    {
        let side = &mut self.sides[i];
        side.session.connected(server, life);
        side.stage = Stage::Connected;
    }

    /// Session `i`, which is Connecting, failed.
    pub fn failed(&mut self, i: usize)
        requires known { i < length self.old.clients }
        requires connecting { IsInState Connecting (slice_get self.old.clients i) }
        ensures { ChangesClient i (comes_to Failed) self.old self.new }
    {
        let side = &mut self.sides[i];
        side.stage = Stage::Failed;
        self.shares -= u32::from(side.session.limit());
    }

    /// Session `i`, which is Connected and has no calls, begins to close.
    pub fn closing(&mut self, i: usize)
        requires known { i < length self.old.clients }
        requires connected { IsConnected (slice_get self.old.clients i) }
        requires idle { HasNoCalls (slice_get self.old.clients i) }
        ensures { ChangesClient i (comes_to Closing) self.old self.new }
    {
        let side = &mut self.sides[i];
        side.stage = Stage::Closing {
            sends: 0,
            sent_at: 0,
        };
    }

    /// Session `i`, which is Closing, is closed.
    pub fn closed(&mut self, i: usize)
        requires known { i < length self.old.clients }
        requires closing { IsInState Closing (slice_get self.old.clients i) }
        ensures { ChangesClient i (comes_to Closed) self.old self.new }
    {
        let side = &mut self.sides[i];
        side.stage = Stage::Closed;
        self.shares -= u32::from(side.session.limit());
    }

    /// What is known of the other end of session `i`.
    pub fn end_of_client(&self, i: usize) -> ClientEnd
        requires known { i < length self.now.clients }
        ensures { IfSome (slice_get self.now.clients i) (IsClientEnd result) }
    {
        let side = &self.sides[i];
        ClientEnd {
            peer: side.peer,
            credits: side.session.limit(),
            server: side.server(),
            life: side.life(),
        }
    }

    /// How many requests of its own session `i` sent since it was opened, or since it began to
    /// close, and when the last of them: both are 0 in every other state.
    pub fn own_requests(&self, i: usize) -> OwnRequests
        requires known { i < length self.now.clients }
        ensures { IfSome (slice_get self.now.clients i) (CountsRequests result) }
    {
        let (sends, sent_at) = self.sides[i].stage.sent();
        OwnRequests { sends, sent_at }
    }

    /// Session `i` sent its own request once more, at `now`, in microseconds: it is Connecting or
    /// Closing.
    pub fn request_sent(&mut self, i: usize, now: u64)
        requires known { i < length self.old.clients }
        requires asking { HasRequest (slice_get self.old.clients i) }
        requires few { IfSome (slice_get self.old.clients i) (λ x. x.sends + 1 < 2 ^ 64) }
        ensures { ChangesClient i (sent_again now) self.old self.new }
    {
        let side = &mut self.sides[i];
        side.stage = side.stage.asked(now);
    }
}
