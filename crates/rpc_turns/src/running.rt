//! A run that owns all that it is made of.
ghost use Rattle.std.specs.Prelude.{◌≡◌, ◌≢◌, ◌≤◌, ◌++◌, ℕ, [], drop, option_to_list, IfOk};
ghost use Rattle.node_steps.specs.Changes.{◌⟶◌};
ghost use Rattle.node_steps.specs.Handed.{GivesBackTo};
ghost use Rattle.endpoint_loop.specs.Polls.{turn_of};
ghost use Rattle.memory_count.specs.Faults.{HasCause};
ghost use Rattle.rpc_outside.specs.declared.service.Mode.TheVariants.{Background};
ghost use Rattle.rpc_turns.specs.Moments.{edges_of, outside};
ghost use Rattle.rpc_turns.specs.Plain.{Stands, limits_at};
ghost use Rattle.rpc_turns.specs.Queue.{KeepsAll};
ghost use Rattle.rpc_turns.specs.Rests.{RestsFor};
ghost use Rattle.rpc_turns.specs.Turns.{TakesTurn, TellsTurn};
ghost use Rattle.rpc_turns.specs.Whole.{Goes, endpoint_in, rested_in, state_in};
ghost use Rattle.worker_crew.specs.Crews.{AreStarted};

use crate::buffers::Buffers;
use crate::ended::Ended;
use crate::local::{NoWorkers, new_endpoint, no_workers};
use crate::plain::{PlainCrew, plain_endpoint};
use crate::rest::{Rest, rests_for};
use crate::turn::take_turn;
use client_core::Done;
use endpoint_loop::{Endpoint, LinkFault, Turn};
use memory_count::{Memory, NoMemory};
use packet_header::{FIRST_LIFE, Life};
use rpc_base::{Limits, SessionNo, SessionState, USUAL_TIMEOUT};
use rpc_outside::{Clock, Duty, Failed, Link, NoRecord, PlainService, Recorder, Service};
use std::alloc::Global;
use std::marker::Model;
use std::sync::Wait;
use worker_crew::{Crew, Hand, SerialSpawner, Spawner, Workers};

/// An endpoint with its link, its clock and its recorder, the calls that are over, and their
/// buffers.
pub struct Running<V: Service, W: Workers, L: Link, C: Clock, R: Recorder> {
    pub(crate) endpoint: Endpoint<V, W>,
    rest: Rest,
    pub(crate) link: L,
    clock: C,
    pub(crate) rec: R,
    pub(crate) ended: Ended,
    pub(crate) buffers: Buffers,
    pub(crate) memory: Memory,
}

// Written by hand, so that whoever lets one go makes a call, and proves nothing of its parts.
impl<V, W, L, C, R> Drop for Running<V, W, L, C, R>
where
    V: Service + Drop,
    W: Workers + Drop,
    L: Link + Drop,
    C: Clock + Drop,
    R: Recorder + Drop,
{
    fn drop(self) {
        let Running {
            endpoint: _endpoint,
            rest: _,
            link: _link,
            clock: _clock,
            rec: _rec,
            ended: _ended,
            buffers: _buffers,
            memory: _memory,
        } = self;
    }
}

impl<V: Service, W: Workers, L: Link, C: Clock, R: Recorder> Model for Running<V, W, L, C, R> {
    ghost use Rattle.rpc_turns.specs.Moments.{edges_of};
    ghost use Rattle.rpc_turns.specs.Whole.{Whole};

    ghost Value = { Whole V W L C R };

    ghost view = { λ r. record {
      endpoint = r.endpoint;
      rest = r.rest;
      edges = edges_of r.link r.clock r.rec;
      ended = r.ended;
      refused = r.memory;
    } };
}

impl<V: Service, W: Workers, L: Link, C: Clock, R: Recorder> Running<V, W, L, C, R> {
    /// A run of an endpoint that was made with these limits, over this link, by this clock, whose
    /// facts go to this recorder. No call is over. It may sleep where nothing comes, or goes on
    /// turning.
    pub fn over(
        alloc: Global,
        endpoint: Endpoint<V, W>,
        rest: Rest,
        link: L,
        clock: C,
        rec: R,
    ) -> Running<V, W, L, C, R>
        ensures endpoint { result.endpoint ≡ endpoint }
        ensures rest { result.rest ≡ rest }
        ensures edges { result.edges ≡ edges_of link clock rec }
        ensures ended { KeepsAll result.ended [] }
        ensures refused { result.refused ≡ 0 }
    {
        Running {
            endpoint,
            rest,
            link,
            clock,
            rec,
            ended: Ended::new(alloc),
            buffers: Buffers::new(alloc),
            memory: Memory::new(alloc),
        }
    }

    /// Takes this address for the link's own. `Failed` comes exactly where a fault of the link
    /// came.
    pub fn bind(&mut self, addr: &str) -> Result<(), Failed>
        ensures endpoint { self.new.endpoint ≡ self.old.endpoint }
        ensures rec { self.new.edges.rec ≡ self.old.edges.rec }
        ensures ended { self.new.ended ≡ self.old.ended }
        ensures cause { HasCause (L.faults self.old.edges.link) (L.faults self.new.edges.link)
            result }
    {
        self.link.bind(addr)
    }

    /// How often memory was refused to it. What it keeps of calls that are over isn't counted.
    pub fn refused(&self) -> u64
        ensures { result ≡ self.now.refused }
    {
        self.memory.refused()
    }

    /// The state of a client session: Unknown where its number was never used.
    pub fn state(&self, session: SessionNo) -> SessionState
        ensures { result ≡ state_in self.now session }
    {
        self.endpoint.state(session)
    }

    /// Makes a turn: waits by the link where the run is asleep, takes one number of the clock, and
    /// makes one turn of the endpoint. The calls that are over then come behind those that weren't
    /// taken out yet. `LinkFault` comes exactly where a fault of the link came.
    pub fn turn(&mut self) -> Result<Turn, LinkFault>
        ensures takes { TakesTurn V.Service W.Workers (outside L.Link C.gave R.log) KeepsAll
            (turn_of result) (rested_in self.old) (rested_in self.new) self.old.ended
            self.new.ended (self.old.refused ⟶ self.new.refused) }
        ensures tells { TellsTurn V.Service W.Workers (outside L.Link C.gave R.log) KeepsAll
            (endpoint_in self.old) (endpoint_in self.new) self.old.ended self.new.ended }
        ensures goes_on { Goes V.Service W.Workers R.log self.old self.new }
        ensures cause { HasCause (L.faults self.old.edges.link) (L.faults self.new.edges.link)
            result }
        ensures team { W.team self.new.endpoint.workers ≡ W.team self.old.endpoint.workers }
        ensures handed { GivesBackTo KeepsAll self.old.endpoint.handed self.new.endpoint.handed
            self.old.ended self.new.ended }
        ensures no_less { self.old.refused ≤ self.new.refused }
    {
        take_turn(
            &mut self.memory,
            &mut self.endpoint,
            &mut self.rest,
            &mut self.link,
            &mut self.clock,
            &mut self.ended,
            &mut self.rec,
        )
    }

    /// For how many microseconds from its last turn on, at most so many, nothing is due: no
    /// session's own request is to be sent or given up, no call times out, and no queued packet may
    /// be sent.
    pub fn rests_for(&self, most: u32) -> u32
        ensures { RestsFor self.now.endpoint.timed most result }
    {
        rests_for(&self.endpoint, most)
    }

    /// Takes out the call that was over first, with its answer where it has one, and its buffers.
    pub fn ended(&mut self) -> Option<Done>
        ensures items { self.old.ended.dones.items
            ≡ option_to_list result ++ self.new.ended.dones.items }
        ensures rest { self.new.ended.dones.items ≡ drop 1 self.old.ended.dones.items }
        ensures whole { self.new.ended.memory ≡ self.old.ended.memory }
        ensures endpoint { self.new.endpoint ≡ self.old.endpoint }
        ensures rec { self.new.edges.rec ≡ self.old.edges.rec }
        ensures edges { self.new.edges ≡ self.old.edges }
        ensures refused { self.new.refused ≡ self.old.refused }
    {
        self.ended.take()
    }

    /// Keeps the buffers of a call that is over for a further one, where there is memory to.
    pub fn give_back(&mut self, done: Done)
        ensures kept { self.new ≡ record self.old { refused = self.new.refused } }
        ensures no_less { self.old.refused ≤ self.new.refused }
    {
        self.buffers.give_back(&mut self.memory, done);
    }

    /// Lets the run go, with its sessions, its buffers and its jobs.
    pub fn close(self)
    where
        V: Drop,
        W: Drop,
        L: Drop,
        C: Drop,
        R: Drop,
    {
        let _gone = self;
    }

    /// Gives the workers out, with the jobs that they have, and lets all else go.
    pub fn into_workers(self) -> W
    where
        V: Drop,
        L: Drop,
        C: Drop,
        R: Drop,
        ensures { result ≡ self.endpoint.workers }
    {
        let Running {
            endpoint,
            rest: _,
            link: _link,
            clock: _clock,
            rec: _rec,
            ended: _ended,
            buffers: _buffers,
            memory: _memory,
        } = self;
        endpoint.into_workers()
    }
}

/// A run of an endpoint whose service has no background types, and that keeps no facts.
pub type InlineRunning<V, L, C> = Running<V, NoWorkers, L, C, NoRecord>;

impl<V: Service + Drop, L: Link + Drop, C: Clock + Drop> InlineRunning<V, L, C> {
    /// A run of a new endpoint with usual limits, over this link and by this clock, whose service
    /// has no background types. It sleeps where nothing comes, and keeps no facts. `NoMemory` comes
    /// only where there is none for the endpoint.
    pub fn inline(
        memory: &mut Memory,
        service: V,
        link: L,
        clock: C,
    ) -> Result<InlineRunning<V, L, C>, NoMemory>
        requires inline { (req_type : ℕ) → V.mode_of req_type ≢ Background }
        requires service { V.stands service [] }
        ensures service { IfOk result (λ r. r.endpoint.service ≡ service) }
        ensures ended { IfOk result (λ r. KeepsAll r.ended []) }
        ensures cause { HasCause memory.old memory.new result }
    {
        let limits = Limits::usual();
        let workers = no_workers(memory, limits)?;
        let endpoint = new_endpoint(memory, limits, service, workers)?;
        let alloc = memory.alloc();
        Ok(Running::over(alloc, endpoint, Rest::new(true), link, clock, NoRecord))
    }
}

/// A run of an endpoint with the plain service, whose background requests a crew works.
pub type PlainRunning<H, L, C> = Running<PlainService, PlainCrew<H>, L, C, NoRecord>;

impl<H: Wait + Drop, L: Link + Drop, C: Clock + Drop> PlainRunning<H, L, C> {
    /// A run of a new endpoint in its first life with the plain service and usual limits, over this
    /// link and by this clock. Its crew has no hands, and works by itself; its calls wait by the
    /// handle `rt`. It sleeps where nothing comes, and keeps no facts. `NoMemory` comes only where
    /// there is none for the endpoint.
    pub fn plain(
        memory: &mut Memory,
        rt: H,
        link: L,
        clock: C,
    ) -> Result<PlainRunning<H, L, C>, NoMemory>
        ensures stands { IfOk result (λ r. Stands (limits_at USUAL_TIMEOUT) [] r.endpoint) }
        ensures ended { IfOk result (λ r. KeepsAll r.ended []) }
        ensures cause { HasCause memory.old memory.new result }
    {
        let mut spawner = SerialSpawner::new();
        let (life, timeout) = (Life(FIRST_LIFE), USUAL_TIMEOUT as u32);
        let endpoint = plain_endpoint(memory, rt, life, timeout, 0, &mut spawner)?;
        let alloc = memory.alloc();
        Ok(Running::over(alloc, endpoint, Rest::new(true), link, clock, NoRecord))
    }
}

impl<V, D, H, L, C, R> Running<V, Crew<D, H>, L, C, R>
where
    V: Service + Drop,
    D: Duty + Drop,
    H: Wait + Drop,
    L: Link + Drop,
    C: Clock + Drop,
    R: Recorder + Drop,
{
    /// Stops the crew, whose hands the spawner has out, and lets all go. It may wait for the hands.
    pub fn stop<P: Spawner<Hand<D>>>(self, spawner: &mut P)
        requires hands { AreStarted self.endpoint.workers (P.hands_out spawner.old) }
        ensures none { P.hands_out spawner.new ≡ [] }
    {
        let _left = self.into_workers().stop(spawner);
    }
}
