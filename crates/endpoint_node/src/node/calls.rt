//! Calls are asked.
ghost use Rattle.client_core.specs.Handing.{handed_waiting};
ghost use Rattle.node_steps.specs.Handed.{timed_of};
ghost use Rattle.session_store.specs.Handing.{HandsInAt};
ghost use Rattle.std.specs.Prelude.{IfOk, ◌≡◌, ◌≤◌, ◌+◌, ◌*◌, [], Some, IfErr, OnErr, OnOk};
ghost use Rattle.std.specs.List.{find};
ghost use Rattle.node_steps.specs.Asks.{IfWanting, IsAskedAs, UnlessWanting, refusal_of};
ghost use Rattle.node_steps.specs.Lacks.{lacks_asked};
ghost use Rattle.node_steps.specs.Notes.{Makes};
ghost use Rattle.memory_count.specs.Faults.{HasCause, HasRisenBy};
ghost use Rattle.message_buffer.specs.Buffer.{bytes_of, capacity_of};
ghost use Rattle.rpc_base.specs.declared.state.SessionState.TheVariants.{Connected};
ghost use Rattle.rpc_laws.specs.Groups.{Asks, state_of};
ghost use Rattle.rpc_laws.specs.Sessions.{is_client};

use crate::node::Node;
use memory_count::Memory;
use message_buffer::MsgBuf;
use node_steps::{AskError, Refused};
use rpc_base::{
    CallNo, Event, MOST_CALLS, MOST_MESSAGE_BYTES, MOST_SESSIONS, SessionNo, SessionState, Who,
};
use rpc_outside::Recorder;
use session_slots::Waiting;

impl Node {
    /// The state of a client session: Unknown where its number was never used.
    pub fn state(&self, session: SessionNo) -> SessionState
        ensures { result ≡ state_of (find (is_client session) self.now.lists.clients) }
    {
        let i = usize::from(session.0);
        if i >= self.store.clients() {
            return SessionState::Unknown;
        }
        self.store.state(i)
    }

    // The number of the next call. No session counts more than 2^45, so that it never overflows.
    fn next_call(&self) -> CallNo
        ensures number { result ≡ self.now.lists.asked }
        ensures few { result ≤ MOST_SESSIONS * MOST_CALLS }
    {
        let _at_most_65536 = self.store.clients();
        CallNo(self.asked)
    }

    // The call waits on its session, which is Connected, and that is noted.
    fn accept<R: Recorder>(
        &mut self,
        memory: &mut Memory,
        session: SessionNo,
        waiting: Waiting,
        rec: &mut R,
    ) -> Result<(), Waiting>
        requires connected { state_of (find (is_client session) self.old.lists.clients)
            ≡ Connected }
        requires call { waiting.call ≡ self.old.lists.asked }
        requires message { waiting.req.len ≤ MOST_MESSAGE_BYTES }
        ensures makes { OnOk result (Makes R.log (Asks session waiting.req_type
            (bytes_of waiting.req) (capacity_of waiting.resp)) (timed_of self.old)
            (timed_of self.new) rec.old rec.new) }
        ensures jobs { self.new.lists.jobs ≡ self.old.lists.jobs }
        ensures servers { self.new.lists.servers ≡ self.old.lists.servers }
        ensures unchanged { OnErr result ((self.new ≡ self.old) × (rec.new ≡ rec.old)) }
        ensures handed_back { IfErr result (λ back. back ≡ waiting) }
        ensures cause { HasCause memory.old memory.new result }
        ensures handed { OnOk result (HandsInAt session (handed_waiting waiting) self.old.handed
            self.new.handed) }
    {
        let i = usize::from(session.0);
        let event = Event::Asked {
            call: waiting.call,
            session,
            req_type: waiting.req_type,
            room: waiting.resp.capacity(),
        };
        let next = self.next_call();
        self.callers.enter(session.0);
        self.store.ask(memory, i, waiting)?;
        self.asked = next.0 + 1;
        rec.note(Who::Node(self.me), event, self.store.newest_ask(i), &[]);
        Ok(())
    }

    /// Asks a call on a client session. Its number counts the accepted calls of the node from 0,
    /// `tag` is the application's own name for it, and the answer goes into `resp`, whose capacity
    /// is the call's room. A refusal hands both buffers back, and changes nothing.
    pub fn ask<R: Recorder>(
        &mut self,
        memory: &mut Memory,
        session: SessionNo,
        req_type: u8,
        req: MsgBuf,
        resp: MsgBuf,
        tag: u64,
        rec: &mut R,
    ) -> Result<CallNo, Refused>
        ensures asks { UnlessWanting result (Makes R.log (Asks session req_type
            (bytes_of req) (capacity_of resp)) (timed_of self.old) (timed_of self.new) rec.old
            rec.new) }
        ensures asked { IsAskedAs (refusal_of req.len (state_of (find (is_client session)
            self.old.lists.clients))) self.old.lists.asked req resp result }
        ensures jobs { self.new.lists.jobs ≡ self.old.lists.jobs }
        ensures servers { self.new.lists.servers ≡ self.old.lists.servers }
        ensures unchanged { OnErr result (self.new ≡ self.old) }
        ensures wanting { IfWanting result (rec.new ≡ rec.old) }
        ensures cause { HasRisenBy (lacks_asked result) memory.old memory.new }
        ensures handed { IfOk result (λ call. HandsInAt session (record {
          call = call;
          tag = tag;
          req = Some req;
          room = capacity_of resp;
        }) self.old.handed self.new.handed) }
    {
        let _ask_fits = req.capacity();
        let _room_fits = resp.capacity();
        let len = req.len();
        if MOST_MESSAGE_BYTES < len {
            rec.note(
                Who::Node(self.me),
                Event::NcallTooLarge { session, len },
                &[],
                &[],
            );
            let why = AskError::TooLarge { len };
            return Err(Refused { why, req, resp });
        }
        let state = self.state(session);
        if state != SessionState::Connected {
            rec.note(
                Who::Node(self.me),
                Event::NcallState { session, state },
                &[],
                &[],
            );
            let why = AskError::NotConnected { state };
            return Err(Refused { why, req, resp });
        }
        let call = self.next_call();
        let waiting = Waiting {
            call,
            tag,
            req_type,
            req,
            resp,
        };
        match self.accept(memory, session, waiting, rec) {
            Ok(()) => Ok(call),
            Err(back) => {
                let Waiting { req, resp, .. } = back;
                let why = AskError::NoMemory;
                Err(Refused { why, req, resp })
            }
        }
    }
}
