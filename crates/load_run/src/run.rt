//! A run of a client.
ghost use Rattle.std.specs.Prelude.{◌≡◌, ◌<◌, ◌≤◌, ◌≢◌, IfErr, IfOk, MatchResult, OnErr};
ghost use Rattle.std.specs.Prelude.{OnOk};
ghost use Rattle.command_line.specs.Answers.{IsLoadInRange};
ghost use Rattle.count_line.specs.Line.{line_text};
ghost use Rattle.load_run.specs.Loading.{calls_line};
ghost use Rattle.load_run.specs.Loading.{Answers, HasLoaded, LoadsOn, Prints, StartsAs};
ghost use Rattle.load_run.specs.Loading.{UnlessFailed, UnlessNoMemory, going_at, is_clean};
ghost use Rattle.load_run.specs.Loading.{pending_in, state_in, unasked};
ghost use Rattle.node_steps.specs.Changes.{◌⟶◌};
ghost use Rattle.rpc_turns.specs.Moments.{outside, where_at};
ghost use Rattle.rpc_turns.specs.Plain.{GoesOnBy};
ghost use Rattle.rpc_turns.specs.Rests.{TellsNothingNew};
ghost use Rattle.run_status.specs.Starting.{KeepsTraffic, Reaches};
ghost use Rattle.run_status.specs.Words.{WhyNot, lacks, lacks_told};
ghost use Rattle.memory_count.specs.Faults.{HasCause, HasRisenBy};
ghost use Rattle.run_status.specs.declared.going.Going.TheVariants.{On, Over};

use crate::ledger::Ledger;
use crate::tally::Tally;
use command_line::LoadSpec;
use count_line::{Count, Word, write_counts};
use load_plan::Plan;
use memory_count::Memory;
use rpc_base::{Peer, SessionNo, SessionState};
use rpc_outside::{Clock, Failed, Link, Recorder, Sink};
use rpc_turns::{Buffers, Ended, PlainEndpoint, Rest, let_go, plain_endpoint, take_turn};
use run_status::{Going, Status, reach, sleeps};
use std::marker::Model;
use std::sync::Wait;
use worker_crew::SerialSpawner;

/// The credits of the session.
pub const LOAD_CREDITS: u16 = 32;

/// A client's endpoint and its session, its calls with how they ended, and its turns counted. Its
/// crew has no hands, and waits by the handle `H`.
#[derive(Drop)]
pub struct LoadRun<H: Wait> {
    pub(crate) endpoint: PlainEndpoint<H>,
    rest: Rest,
    pub(crate) session: SessionNo,
    pub(crate) ledger: Ledger,
    pub(crate) asked: u32,
    // The buffers of calls that are over.
    pub(crate) buffers: Buffers,
    turns: u32,
    made: u32,
}

impl<H: Wait> Model for LoadRun<H> {
    ghost use Rattle.std.specs.Prelude.{◌≤◌, []};
    ghost use Rattle.load_run.specs.Loading.{LoadsSoFar};
    ghost use Rattle.worker_crew.specs.Crews.{AreStarted};

    ghost Value = { LoadsSoFar };

    ghost view = { λ r. record {
      endpoint = r.endpoint;
      rest = r.rest;
      session = r.session;
      ledger = r.ledger;
      asked = r.asked;
      turns = r.turns;
      made = r.made;
    } };

    ghost invariant = { λ r. (r.asked ≤ r.ledger.plan.calls) × (r.made ≤ r.turns)
        × AreStarted r.endpoint.workers [] };
}

impl<H: Wait> LoadRun<H> {
    /// How many calls weren't asked yet.
    pub(crate) fn unasked(&self) -> u32
        ensures { result ≡ unasked self.now }
    {
        self.ledger.plan.calls - self.asked
    }

    /// How many calls are pending.
    pub(crate) fn pending(&self) -> u64
        ensures { result ≡ pending_in self.now }
    {
        self.endpoint.pending(self.session)
    }

    /// The state of the session.
    pub(crate) fn state(&self) -> SessionState
        ensures { result ≡ state_in self.now }
    {
        self.endpoint.state(self.session)
    }

    // Whether all calls were asked, and as many ended well with a right answer.
    fn is_clean(&self) -> bool
        ensures { result ≡ is_clean self.now }
    {
        self.unasked() == 0 && self.ledger.tally.ok == u64::from(self.ledger.plan.calls)
    }

    // Whether it goes on, and how it is to end where it doesn't.
    fn going(&self) -> Going
        ensures going { result ≡ going_at self.now }
        ensures left { result ≡ On → self.now.made < self.now.turns }
        ensures wants_none { lacks_told result ≡ 0 }
    {
        match self.state() {
            SessionState::Closed | SessionState::Failed | SessionState::Broken => {
                if self.is_clean() {
                    Going::Over(Status::Done)
                } else {
                    Going::Over(Status::CallsFailed)
                }
            }
            _ if self.made == self.turns => Going::Over(Status::TurnsSpent),
            _ => Going::On,
        }
    }
}

// Packets to this peer go several in a datagram of so many bytes, and alone where there are none.
fn pack<L: Link>(frame: Option<u32>, link: &mut L, peer: Peer)
    ensures { TellsNothingNew L.Link link.old link.new }
{
    if let Some(bytes) = frame {
        link.pack(peer, bytes);
    }
}

// Binds the link to the client's address, and learns by which number it knows the server, to whom
// packets go as the words say.
fn reach_server<L: Link>(spec: &LoadSpec, link: &mut L) -> Result<Peer, Failed>
    ensures reaches { IfOk result (Reaches L.Link spec.now.bind spec.now.addr link.new) }
    ensures traffic { KeepsTraffic L.Link link.old link.new }
    ensures cause { HasCause (L.faults link.old) (L.faults link.new) result }
{
    let server = reach(spec.bind.as_str(), spec.addr.as_str(), link)?;
    pack(spec.frame, link, server);
    Ok(server)
}

impl<H: Wait + Drop> LoadRun<H> {
    /// Binds the link to the client's address, and opens a session with the server at the other
    /// one, with 32 credits, of an endpoint of node 0 in the life of the words, with usual limits
    /// but for its timeout. Packets to the server go several in a datagram where the words name a
    /// frame. `LinkFault` comes exactly where a fault of the link came, and `NoMemory` only where
    /// memory was refused.
    pub fn start<L: Link, R: Recorder>(
        memory: &mut Memory,
        rt: H,
        spec: &LoadSpec,
        link: &mut L,
        rec: &mut R,
    ) -> Result<LoadRun<H>, Status>
        requires { IsLoadInRange spec.now }
        ensures starts { IfOk result (StartsAs R.log L.Link spec.now link.old link.new rec.old
            rec.new) }
        ensures traffic { KeepsTraffic L.Link link.old link.new }
        ensures quiet { OnOk result (L.faults link.new ≡ L.faults link.old) }
        ensures refused { IfErr result (WhyNot (L.faults link.old) (L.faults link.new)) }
        ensures unnoted { OnErr result (rec.new ≡ rec.old) }
        ensures cause { MatchResult result (λ _. memory.old ≤ memory.new)
            (λ why. HasRisenBy (lacks why) memory.old memory.new) }
    {
        let Ok(peer) = reach_server(spec, link) else {
            return Err(Status::LinkFault);
        };
        let Ok(plan) = Plan::of(memory, spec) else {
            return Err(Status::NoMemory);
        };
        let mut spawner = SerialSpawner::new();
        let (life, timeout) = (spec.life, spec.timeout);
        let Ok(mut endpoint) = plain_endpoint(memory, rt, life, timeout, 0, &mut spawner) else {
            return Err(Status::NoMemory);
        };
        let Ok(session) = endpoint.connect(memory, peer, LOAD_CREDITS, 0, rec) else {
            let_go(endpoint);
            return Err(Status::NoMemory);
        };
        Ok(LoadRun {
            endpoint,
            rest: Rest::new(sleeps(spec.idle)),
            session,
            ledger: Ledger {
                plan,
                tally: Tally::new(),
            },
            asked: 0,
            buffers: Buffers::new(memory.alloc()),
            turns: spec.turns,
            made: 0,
        })
    }

    /// Makes a turn: where the session is Connected, asks calls until 64 are pending or all are
    /// asked, and begins to close it where none is pending then; waits by the link where the run is
    /// asleep, takes one number of the clock, and makes one turn of the endpoint. It is over with
    /// `LinkFault` exactly where a fault of the link came; with `NoMemory` only where memory was
    /// refused, for a call that is asked or is over; and otherwise exactly where the session is
    /// over, with `Done` or `CallsFailed`, or all turns are made, with `TurnsSpent`. A turn is made
    /// only while some are left.
    pub fn turn<L: Link, C: Clock, R: Recorder>(
        &mut self,
        memory: &mut Memory,
        link: &mut L,
        clock: &mut C,
        rec: &mut R,
    ) -> Going
        requires left { self.old.made < self.old.turns }
        ensures loads { UnlessNoMemory result
            (HasLoaded (outside L.Link C.gave R.log)
            (where_at self.old link.old clock.old rec.old)
            (where_at self.new link.new clock.new rec.new) (memory.old ⟶ memory.new)) }
        ensures on { UnlessFailed result (LoadsOn (outside L.Link C.gave R.log)
            (where_at self.old link.old clock.old rec.old)
            (where_at self.new link.new clock.new rec.new) 1) }
        ensures goes_on { GoesOnBy R.log self.old.endpoint self.new.endpoint rec.old rec.new }
        ensures answers { Answers (L.faults link.old) (L.faults link.new) self.new result }
        ensures left { result ≡ On → self.new.made < self.new.turns }
        ensures cause { HasRisenBy (lacks_told result) memory.old memory.new }
    {
        let Ok(()) = self.prepare(memory, rec) else {
            return Going::Over(Status::NoMemory);
        };
        let mut ended = Ended::new(memory.alloc());
        let turned = take_turn(
            memory,
            &mut self.endpoint,
            &mut self.rest,
            link,
            clock,
            &mut ended,
            rec,
        );
        self.made += 1;
        match (turned, self.ledger.count(memory, ended, &mut self.buffers)) {
            (Err(_), _) => Going::Over(Status::LinkFault),
            (Ok(_), Err(_)) => Going::Over(Status::NoMemory),
            (Ok(_), Ok(())) => self.going(),
        }
    }

    /// Writes the line of its counts, once the run is over: calls, those that ended well, whose
    /// answer was too large, that lost their peer, that had a wrong answer, and that weren't asked.
    /// Tells with which status the run ended, or `WriteFault` exactly where a fault of the sink
    /// came; a front of the line was then written.
    pub fn finish<K: Sink>(self, sink: &mut K) -> Status
        requires over { going_at self ≢ On }
        ensures { Prints self result (K.page sink.old) (K.page sink.new) }
    {
        let line = self.line();
        let told = self.told();
        self.stop();
        match write_counts(sink, &line) {
            Ok(()) => told,
            Err(_) => Status::WriteFault,
        }
    }

    /// Lets the run go, and writes nothing.
    pub fn stop(self) {
        let LoadRun { endpoint, .. } = self;
        let_go(endpoint);
    }

    // With which status a run that is over ended.
    fn told(&self) -> Status
        requires over { going_at self.now ≢ On }
        ensures told { going_at self.now ≡ Over result }
        ensures within { self.now.asked ≤ self.now.ledger.plan.calls }
    {
        let _asked = self.asked;
        match self.going() {
            Going::Over(status) => status,
            Going::On => unreachable!(),
        }
    }

    // The line of its counts.
    fn line(&self) -> [Count; 6]
        ensures { line_text result ≡ calls_line self.now }
    {
        let tally = &self.ledger.tally;
        [
            Count::of(Word::Calls, u64::from(self.ledger.plan.calls)),
            Count::of(Word::Ok, tally.ok),
            Count::of(Word::Small, tally.small),
            Count::of(Word::Lost, tally.lost),
            Count::of(Word::Wrong, tally.wrong),
            Count::of(Word::Unasked, u64::from(self.unasked())),
        ]
    }
}
