//! A run of a server that asks its background calls of another one.
ghost use Rattle.std.specs.Prelude.{◌≡◌, ◌<◌, ◌≤◌, IfErr, IfOk, MatchResult, OnErr, OnOk};
ghost use Rattle.command_line.specs.Answers.{IsServeInRange};
ghost use Rattle.count_line.specs.Line.{line_text};
ghost use Rattle.endpoint_loop.specs.PlainMembers.{plain_members};
ghost use Rattle.relay_run.specs.Runs.{Answers, HasRelayed, IsRelaying, StartsRelaying};
ghost use Rattle.relay_run.specs.Runs.{UnlessNoMemory, going_after, line_of, one_more, plain_desk};
ghost use Rattle.relay_run.specs.Runs.{relays_line};
ghost use Rattle.memory_count.specs.Faults.{HasRisenBy};
ghost use Rattle.rpc_turns.specs.Moments.{outside, where_at};
ghost use Rattle.rpc_turns.specs.Turns.{RunsOn};
ghost use Rattle.run_status.specs.Starting.{KeepsTraffic};
ghost use Rattle.run_status.specs.Words.{WhyNot, lacks, lacks_told};
ghost use Rattle.run_status.specs.declared.going.Going.TheVariants.{On};
ghost use Rattle.serve_run.specs.Serving.{Writes};

use crate::opening::{RelayEndpoint, desk_endpoint, let_go, open_session};
use command_line::ServeSpec;
use count_line::{Count, Word, write_counts};
use endpoint_loop::Turn;
use memory_count::Memory;
use relay_turns::{TurnFault, relay_turn};
use relays::Relays;
use rpc_base::USUAL_JOBS;
use rpc_laws::Counted;
use rpc_outside::{Clock, Link, Recorder, Sink};
use rpc_turns::Rest;
use run_status::{Going, Status, reach, sleeps};
use std::marker::Model;

/// A server's endpoint, with the jobs that it asked of another server, and its turns counted. It
/// must be ended by `finish` or `stop`.
pub struct RelayRun {
    endpoint: RelayEndpoint,
    rest: Rest,
    relays: Relays,
    turns: u32,
    made: u32,
}

impl Model for RelayRun {
    ghost use Rattle.std.specs.Prelude.{◌≤◌};
    ghost use Rattle.relay_run.specs.Runs.{RelaysSoFar};

    ghost Value = { RelaysSoFar };

    ghost view = { λ r. record {
      endpoint = r.endpoint;
      rest = r.rest;
      relays = r.relays;
      turns = r.turns;
      made = r.made;
    } };

    ghost invariant = { λ r. r.made ≤ r.turns };
}

// The line of a server's counts.
fn line_counts(turns: u32, counts: &Counted, relayed: u64, here: u64) -> [Count; 7]
    ensures { line_text result ≡ relays_line turns counts.now relayed here }
{
    [
        Count::of(Word::Turns, u64::from(turns)),
        Count::of(Word::Ran, counts.ran),
        Count::of(Word::Given, counts.given),
        Count::of(Word::Dropped, counts.dropped),
        Count::of(Word::Overflowed, counts.overflowed),
        Count::of(Word::Relayed, relayed),
        Count::of(Word::Here, here),
    ]
}

// How it goes on after a turn.
fn going(turned: Result<Turn, TurnFault>, all_made: bool) -> Going
    ensures { result ≡ going_after turned all_made }
{
    match turned {
        Err(TurnFault::NoMemory) => Going::Over(Status::NoMemory),
        Err(TurnFault::LinkFault) => Going::Over(Status::LinkFault),
        Ok(_) if all_made => Going::Over(Status::Done),
        Ok(_) => Going::On,
    }
}

impl RelayRun {
    /// Binds the link to the server's address, for an endpoint of node 0 in the life of the words,
    /// with usual limits but for its timeout, and opens a session with the other server, with 32
    /// credits. `LinkFault` comes exactly where a fault of the link came, and `NoMemory` only where
    /// memory was refused.
    pub fn start<L: Link, R: Recorder>(
        memory: &mut Memory,
        spec: &ServeSpec,
        other: &str,
        link: &mut L,
        rec: &mut R,
    ) -> Result<RelayRun, Status>
        requires range { IsServeInRange spec.now }
        ensures starts { IfOk result (StartsRelaying R.log L.Link spec.now other.now link.old
            link.new rec.old rec.new) }
        ensures works { IfOk result IsRelaying }
        ensures refused { IfErr result (WhyNot (L.faults link.old) (L.faults link.new)) }
        ensures quiet { OnOk result (L.faults link.new ≡ L.faults link.old) }
        ensures traffic { KeepsTraffic L.Link link.old link.new }
        ensures unnoted { OnErr result (rec.new ≡ rec.old) }
        ensures cause { MatchResult result (λ _. memory.old ≤ memory.new)
            (λ why. HasRisenBy (lacks why) memory.old memory.new) }
    {
        let Ok(peer) = reach(spec.addr.as_str(), other, link) else {
            return Err(Status::LinkFault);
        };
        let Ok(relays) = Relays::new(memory, USUAL_JOBS) else {
            return Err(Status::NoMemory);
        };
        let Ok(mut endpoint) = desk_endpoint(memory, spec.life, spec.timeout) else {
            relays.finish();
            return Err(Status::NoMemory);
        };
        let Ok(()) = open_session(memory, &mut endpoint, peer, rec) else {
            let_go(endpoint);
            relays.finish();
            return Err(Status::NoMemory);
        };
        Ok(RelayRun {
            endpoint,
            rest: Rest::new(sleeps(spec.idle)),
            relays,
            turns: spec.turns,
            made: 0,
        })
    }

    /// Makes a turn: waits by the link where the run is asleep, takes one number of the clock, and
    /// makes one turn of the endpoint then; answers each job whose call is over; and asks each job
    /// that it was given of the other server, or works it here where its call is refused. It is
    /// over with `NoMemory` only where memory was refused for a call that is asked or is over; else
    /// with `LinkFault` exactly where a fault of the link came; and else with `Done` exactly where
    /// this was the last turn. A turn is made only while some are left.
    pub fn turn<L: Link, C: Clock, R: Recorder>(
        &mut self,
        memory: &mut Memory,
        link: &mut L,
        clock: &mut C,
        rec: &mut R,
    ) -> Going
        requires left { self.old.made < self.old.turns }
        requires works { IsRelaying self.old }
        ensures relays { UnlessNoMemory result (HasRelayed (outside L.Link C.gave R.log)
            (where_at self.old link.old clock.old rec.old)
            (where_at self.new link.new clock.new rec.new)) }
        ensures runs { RunsOn plain_members plain_desk (outside L.Link C.gave R.log)
            (where_at self.old.endpoint link.old clock.old rec.old)
            (where_at self.new.endpoint link.new clock.new rec.new) 1 }
        ensures counted { self.new ≡ one_more self.new.endpoint self.new.rest self.new.relays
            self.old }
        ensures works { UnlessNoMemory result (IsRelaying self.new) }
        ensures answers { Answers (L.faults link.old) (L.faults link.new) self.new result }
        ensures left { result ≡ On → self.new.made < self.new.turns }
        ensures cause { HasRisenBy (lacks_told result) memory.old memory.new }
    {
        let turned = relay_turn(
            memory,
            &mut self.endpoint,
            &mut self.rest,
            &mut self.relays,
            link,
            clock,
            rec,
        );
        self.made += 1;
        going(turned, self.made == self.turns)
    }

    /// Gives up the jobs that are out, and writes the line of its counts, once all turns are made:
    /// turns, handlers that ran, jobs given, packets dropped, datagrams overflowed, and jobs that
    /// were answered with the other server's answers, and here. `WriteFault` comes exactly where a
    /// fault of the sink came; a front of the line was then written.
    pub fn finish<K: Sink>(self, sink: &mut K) -> Status
        requires over { self.made ≡ self.turns }
        ensures prints { Writes result (line_of self) (K.page sink.old) (K.page sink.new) }
    {
        let line = self.line();
        self.stop();
        match write_counts(sink, &line) {
            Ok(()) => Status::Done,
            Err(_) => Status::WriteFault,
        }
    }

    /// Gives up the jobs that are out, and writes nothing.
    pub fn stop(self) {
        let RelayRun {
            endpoint,
            rest: _,
            relays,
            turns: _,
            made: _,
        } = self;
        let_go(endpoint);
        relays.finish();
    }

    // The line of its counts.
    fn line(&self) -> [Count; 7]
        ensures { line_text result ≡ line_of self.now }
    {
        let counts = self.endpoint.counts();
        line_counts(
            self.turns,
            &counts,
            self.relays.relayed(),
            self.relays.here(),
        )
    }
}
