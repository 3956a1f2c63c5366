//! A run of a server.
ghost use Rattle.std.specs.Prelude.{◌≡◌, ◌<◌, ◌≤◌, [], IfOk, IfErr, IfSome};
ghost use Rattle.command_line.specs.Answers.{IsServeInRange};
ghost use Rattle.std.specs.Prelude.{MatchResult, OnErr, OnOk};
ghost use Rattle.endpoint_loop.specs.PlainMembers.{plain_members};
ghost use Rattle.node_steps.specs.Changes.{◌⟶◌};
ghost use Rattle.rpc_turns.specs.Moments.{outside, where_at};
ghost use Rattle.rpc_turns.specs.Plain.{IsCrewed, crew_members, limits_at};
ghost use Rattle.rpc_turns.specs.Turns.{RunsOn};
ghost use Rattle.memory_count.specs.Faults.{HasCause, HasRisenBy};
ghost use Rattle.run_status.specs.Starting.{KeepsTraffic};
ghost use Rattle.run_status.specs.Words.{WhyNot, lacks};
ghost use Rattle.run_status.specs.declared.going.Going.TheVariants.{On};
ghost use Rattle.serve_run.specs.Serving.{Answers, HasServed, Prints, StartsServing, Writes};
ghost use Rattle.serve_run.specs.Serving.{turns_line};
ghost use Rattle.worker_crew.specs.Crews.{AreStarted, team_of};

use client_core::Done;
use command_line::ServeSpec;
use count_line::{Count, Word, write_counts};
use endpoint_loop::Continuation;
use memory_count::Memory;
use rpc_laws::Counted;
use rpc_outside::{Clock, Failed, Link, PlainDuty, Recorder, Sink};
use rpc_turns::{PlainEndpoint, Rest, plain_endpoint, stop, take_turn};
use run_status::{Going, Status, sleeps};
use std::marker::Model;
use std::sync::Wait;
use worker_crew::{Hand, Spawner};

/// A server asks no calls.
#[derive(Clone, Copy)]
struct NoCalls;

impl Continuation for NoCalls {
    fn done(&mut self, _done: Done) {}
}

/// A server's endpoint, with its turns counted. Its crew's calls wait by the handle `H`.
#[derive(Drop)]
pub struct ServeRun<H: Wait> {
    endpoint: PlainEndpoint<H>,
    rest: Rest,
    turns: u32,
    made: u32,
}

impl<H: Wait> Model for ServeRun<H> {
    ghost use Rattle.std.specs.Prelude.{◌≤◌};
    ghost use Rattle.serve_run.specs.Serving.{ServesSoFar};

    ghost Value = { ServesSoFar };

    ghost view = { λ r. record {
      endpoint = r.endpoint;
      rest = r.rest;
      turns = r.turns;
      made = r.made;
    } };

    ghost invariant = { λ r. r.made ≤ r.turns };
}

// Writes the line of a server's counts.
fn write_turns<K: Sink>(sink: &mut K, turns: u32, counts: &Counted) -> Status
    ensures { Writes result (turns_line turns counts.now) (K.page sink.old) (K.page sink.new) }
{
    let line = [
        Count::of(Word::Turns, u64::from(turns)),
        Count::of(Word::Ran, counts.ran),
        Count::of(Word::Given, counts.given),
        Count::of(Word::Dropped, counts.dropped),
        Count::of(Word::Overflowed, counts.overflowed),
    ];
    match write_counts(sink, &line) {
        Ok(()) => Status::Done,
        Err(_) => Status::WriteFault,
    }
}

// The link takes the server's address for its own.
fn listen<L: Link>(spec: &ServeSpec, link: &mut L) -> Result<(), Failed>
    ensures bound { OnOk result (IfSome (L.bound link.new) (λ bytes. bytes ≡ spec.now.addr)) }
    ensures traffic { KeepsTraffic L.Link link.old link.new }
    ensures cause { HasCause (L.faults link.old) (L.faults link.new) result }
{
    link.bind(spec.addr.as_str())
}

impl<H: Wait + Drop> ServeRun<H> {
    /// Binds the link to the address, for an endpoint of node 0 in the life of the words, with
    /// usual limits but for its timeout, and starts its crew: each of its hands, at most 16, is
    /// offered to the spawner, which has no hand out. `LinkFault` comes exactly where a fault of
    /// the link came, and `NoMemory` only where memory was refused; no hand is out then.
    pub fn start<L: Link, P: Spawner<Hand<PlainDuty>>>(
        memory: &mut Memory,
        rt: H,
        spec: &ServeSpec,
        link: &mut L,
        spawner: &mut P,
    ) -> Result<ServeRun<H>, Status>
        requires range { IsServeInRange spec.now }
        requires none { P.hands_out spawner.old ≡ [] }
        ensures starts { IfOk result (StartsServing L.Link spec.now link.old link.new) }
        ensures crew { IfOk result (λ r. IsCrewed spec.now.life (limits_at spec.now.timeout)
            spec.now.workers (P.hands_out spawner.new) r.endpoint) }
        ensures none { OnErr result (P.hands_out spawner.new ≡ []) }
        ensures refused { IfErr result (WhyNot (L.faults link.old) (L.faults link.new)) }
        ensures quiet { OnOk result (L.faults link.new ≡ L.faults link.old) }
        ensures traffic { KeepsTraffic L.Link link.old link.new }
        ensures cause { MatchResult result (λ _. memory.old ≤ memory.new)
            (λ why. HasRisenBy (lacks why) memory.old memory.new) }
    {
        let Ok(()) = listen(spec, link) else {
            return Err(Status::LinkFault);
        };
        let (life, timeout) = (spec.life, spec.timeout);
        let Ok(endpoint) = plain_endpoint(memory, rt, life, timeout, spec.workers, spawner) else {
            return Err(Status::NoMemory);
        };
        Ok(ServeRun {
            endpoint,
            rest: Rest::new(sleeps(spec.idle)),
            turns: spec.turns,
            made: 0,
        })
    }

    /// Makes a turn: waits by the link where the run is asleep, takes one number of the clock, and
    /// makes one turn of the endpoint then. It is over with `LinkFault` exactly where a fault of
    /// the link came, and otherwise with `Done` exactly where this was the last turn. A turn is
    /// made only while some are left. The crew has the hands that it had.
    pub fn turn<L: Link, C: Clock, R: Recorder>(
        &mut self,
        memory: &mut Memory,
        link: &mut L,
        clock: &mut C,
        rec: &mut R,
    ) -> Going
        requires left { self.old.made < self.old.turns }
        ensures serves { HasServed (outside L.Link C.gave R.log)
            (where_at self.old link.old clock.old rec.old)
            (where_at self.new link.new clock.new rec.new) (memory.old ⟶ memory.new) }
        ensures tells { RunsOn plain_members crew_members (outside L.Link C.gave R.log)
            (where_at self.old.endpoint link.old clock.old rec.old)
            (where_at self.new.endpoint link.new clock.new rec.new) 1 }
        ensures answers { Answers (L.faults link.old) (L.faults link.new) self.new result }
        ensures left { result ≡ On → self.new.made < self.new.turns }
        ensures team { team_of self.new.endpoint.workers ≡ team_of self.old.endpoint.workers }
        ensures no_less { memory.old ≤ memory.new }
    {
        let turned = take_turn(
            memory,
            &mut self.endpoint,
            &mut self.rest,
            link,
            clock,
            &mut NoCalls,
            rec,
        );
        self.made += 1;
        match turned {
            Err(_) => Going::Over(Status::LinkFault),
            Ok(_) if self.made == self.turns => Going::Over(Status::Done),
            Ok(_) => Going::On,
        }
    }

    /// Stops the crew, whose hands the spawner has out, and writes the line of its counts, once all
    /// turns are made: turns, handlers that ran, jobs given, packets dropped and datagrams
    /// overflowed. `WriteFault` comes exactly where a fault of the sink came; a front of the line
    /// was then written.
    pub fn finish<P: Spawner<Hand<PlainDuty>>, K: Sink>(
        self,
        spawner: &mut P,
        sink: &mut K,
    ) -> Status
        requires over { self.made ≡ self.turns }
        requires hands { AreStarted self.endpoint.workers (P.hands_out spawner.old) }
        ensures none { P.hands_out spawner.new ≡ [] }
        ensures prints { Prints self result (K.page sink.old) (K.page sink.new) }
    {
        let (turns, counts) = (self.turns, self.endpoint.counts());
        self.stop(spawner);
        write_turns(sink, turns, &counts)
    }

    /// Stops the crew, whose hands the spawner has out, and writes nothing.
    pub fn stop<P: Spawner<Hand<PlainDuty>>>(self, spawner: &mut P)
        requires hands { AreStarted self.endpoint.workers (P.hands_out spawner.old) }
        ensures none { P.hands_out spawner.new ≡ [] }
    {
        let ServeRun { endpoint, .. } = self;
        stop(endpoint, spawner);
    }
}
