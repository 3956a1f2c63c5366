//! Sessions and calls of a run.
ghost use Rattle.std.specs.Prelude.{◌≡◌, ◌≤◌, [], true, length, IfErr, IfOk, OnErr, OnOk};
ghost use Rattle.memory_count.specs.Faults.{HasRisenBy};
ghost use Rattle.node_steps.specs.Notes.{Makes};
ghost use Rattle.message_buffer.specs.Buffer.{bytes_of, capacity_of};
ghost use Rattle.rpc_base.specs.declared.state.SessionState.TheVariants.{Connected};
ghost use Rattle.rpc_laws.specs.Groups.{Asks};
ghost use Rattle.rpc_turns.specs.Lacks.{lacks};
ghost use Rattle.rpc_turns.specs.Waits.{GivesFirst};
ghost use Rattle.rpc_turns.specs.Whole.{Goes, state_in};
ghost use Rattle.rpc_turns.specs.declared.error.RpcError.TheVariants.{TurnsSpent};

use crate::credits::Credits;
use crate::error::RpcError;
use crate::running::Running;
use client_core::Done;
use endpoint_loop::Refused;
use message_buffer::MsgBuf;
use rpc_base::{CallNo, MOST_MESSAGE_BYTES, Peer, SessionNo, SessionState};
use rpc_outside::{Clock, Link, Recorder, Service};
use worker_crew::Workers;

impl<V: Service, W: Workers, L: Link, C: Clock, R: Recorder> Running<V, W, L, C, R> {
    // Opens a session to a peer.
    fn open(&mut self, peer: Peer, credits: Credits) -> Result<SessionNo, RpcError>
        ensures number { IfOk result (λ s. s ≡ length self.old.endpoint.timed.lists.clients) }
        ensures goes_on { Goes V.Service W.Workers R.log self.old self.new }
        ensures link { self.new.edges.link ≡ self.old.edges.link }
        ensures cause { HasRisenBy (lacks result) self.old.refused self.new.refused }
    {
        match self
            .endpoint
            .connect(&mut self.memory, peer, credits.count, 0, &mut self.rec)
        {
            Ok(session) => Ok(session),
            Err(why) => Err(RpcError::from(why)),
        }
    }

    /// Opens a session to the peer at this address. It is Connecting, and its request to connect
    /// goes out in the next turn.
    pub fn connect(&mut self, addr: &str, credits: Credits) -> Result<SessionNo, RpcError>
        ensures number { IfOk result (λ s. s ≡ length self.old.endpoint.timed.lists.clients) }
        ensures goes_on { Goes V.Service W.Workers R.log self.old self.new }
        ensures cause { HasRisenBy (lacks result) self.old.refused self.new.refused }
    {
        let peer = self.link.peer(addr)?;
        self.open(peer, credits)
    }

    // Whether a session is connected, and not still Connecting.
    fn is_connected(&self, session: SessionNo) -> Result<bool, RpcError>
        ensures connected { IfOk result (λ b. b ≡ true → state_in self.now session ≡ Connected) }
        ensures never_memory { lacks result ≡ 0 }
    {
        match self.state(session) {
            SessionState::Connected => Ok(true),
            SessionState::Connecting => Ok(false),
            state => Err(RpcError::NotConnected { state }),
        }
    }

    // Makes turns until a session is connected, at most so many.
    fn wait_connected(&mut self, session: SessionNo, turns: u32) -> Result<(), RpcError>
        ensures connected { OnOk result (state_in self.new session ≡ Connected) }
        ensures goes_on { Goes V.Service W.Workers R.log self.old self.new }
        ensures cause { HasRisenBy (lacks result) self.old.refused self.new.refused }
    {
        'turns: for _turn in 0..turns {
            if self.is_connected(session)? {
                return Ok(());
            }
            self.turn()?;
        }
        Err(RpcError::TurnsSpent)
    }

    /// Opens a session to the peer at this address, and makes turns until it is connected, at most
    /// so many: `TurnsSpent` comes where it isn't then, and `NotConnected` where the peer refused
    /// it or didn't answer.
    pub fn connect_within(
        &mut self,
        addr: &str,
        credits: Credits,
        turns: u32,
    ) -> Result<SessionNo, RpcError>
        ensures connected { IfOk result (λ s. state_in self.new s ≡ Connected) }
        ensures number { IfOk result (λ s. s ≡ length self.old.endpoint.timed.lists.clients) }
        ensures goes_on { Goes V.Service W.Workers R.log self.old self.new }
        ensures cause { HasRisenBy (lacks result) self.old.refused self.new.refused }
    {
        let session = self.connect(addr, credits)?;
        self.wait_connected(session, turns)?;
        Ok(session)
    }

    // Asks a call with these buffers. A refusal keeps them for a further call.
    fn ask_with(
        &mut self,
        session: SessionNo,
        req_type: u8,
        req: MsgBuf,
        resp: MsgBuf,
    ) -> Result<CallNo, RpcError>
        ensures asks { OnOk result (Makes R.log (Asks session req_type (bytes_of req)
            (capacity_of resp)) self.old.endpoint.timed self.new.endpoint.timed
            self.old.edges.rec self.new.edges.rec) }
        ensures number { IfOk result (λ call. call ≡ self.old.endpoint.timed.lists.asked) }
        ensures goes_on { Goes V.Service W.Workers R.log self.old self.new }
        ensures unchanged { OnErr result (self.new.endpoint ≡ self.old.endpoint) }
        ensures cause { HasRisenBy (lacks result) self.old.refused self.new.refused }
    {
        match self.endpoint.ask(
            &mut self.memory,
            session,
            req_type,
            req,
            resp,
            0,
            &mut self.rec,
        ) {
            Ok(call) => Ok(call),
            Err(refused) => {
                let Refused { why, req, resp } = refused;
                self.buffers.keep(&mut self.memory, req, resp);
                Err(RpcError::from(why))
            }
        }
    }

    /// Asks a call of a type with these bytes, whose answer may have `room` bytes, at most
    /// 1,048,576. Its number counts the accepted calls of the run from 0. `TooLarge` comes exactly
    /// where there are more than 1,048,576 bytes, and then `NotConnected` where the session isn't
    /// connected. A refusal asks nothing.
    pub fn ask(
        &mut self,
        session: SessionNo,
        req_type: u8,
        ask: &[u8],
        room: u32,
    ) -> Result<CallNo, RpcError>
        requires room { room ≤ MOST_MESSAGE_BYTES }
        ensures asks { OnOk result (Makes R.log (Asks session req_type ask.now room)
            self.old.endpoint.timed self.new.endpoint.timed self.old.edges.rec
            self.new.edges.rec) }
        ensures number { IfOk result (λ call. call ≡ self.old.endpoint.timed.lists.asked) }
        ensures goes_on { Goes V.Service W.Workers R.log self.old self.new }
        ensures unchanged { OnErr result (self.new.endpoint ≡ self.old.endpoint) }
        ensures cause { HasRisenBy (lacks result) self.old.refused self.new.refused }
    {
        if ask.len() > MOST_MESSAGE_BYTES as usize {
            return Err(RpcError::TooLarge);
        }
        let (req, resp) = self.buffers.pair(&mut self.memory, ask, room)?;
        self.ask_with(session, req_type, req, resp)
    }

    /// Takes out the call that was over first, and makes turns until there is one, at most so many:
    /// `TurnsSpent` comes where none was over then. It is the first of those that weren't taken out
    /// yet and those that were over in these turns.
    pub fn wait_ended(&mut self, turns: u32) -> Result<Done, RpcError>
        ensures gives { IfOk result (GivesFirst R.log V.Service W.Workers self.old.endpoint
            self.new.endpoint self.old.edges.rec self.new.edges.rec self.old.ended
            self.new.ended) }
        ensures spent { IfErr result
            (λ why. why ≡ TurnsSpent → self.new.ended.dones.items ≡ []) }
        ensures goes_on { Goes V.Service W.Workers R.log self.old self.new }
        ensures cause { HasRisenBy (lacks result) self.old.refused self.new.refused }
    {
        'turns: for _turn in 0..turns {
            if let Some(done) = self.ended() {
                return Ok(done);
            }
            self.turn()?;
        }
        match self.ended() {
            Some(done) => Ok(done),
            None => Err(RpcError::TurnsSpent),
        }
    }

    /// Begins to close a client session that has no calls: its request to disconnect goes out in
    /// the next turn.
    pub fn disconnect(&mut self, session: SessionNo) -> Result<(), RpcError>
        ensures goes_on { Goes V.Service W.Workers R.log self.old self.new }
        ensures unchanged { OnErr result (self.new.endpoint ≡ self.old.endpoint) }
        ensures never_memory { lacks result ≡ 0 }
        ensures refused { self.new.refused ≡ self.old.refused }
    {
        match self.endpoint.disconnect(session, &mut self.rec) {
            Ok(()) => Ok(()),
            Err(why) => Err(RpcError::from(why)),
        }
    }
}
