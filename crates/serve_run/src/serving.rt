//! `serve`, from its start to its end.
ghost use Rattle.std.specs.Prelude.{◌≡◌, ◌<◌, ◌≤◌, []};
ghost use Rattle.command_line.specs.Answers.{IsServeInRange};
ghost use Rattle.memory_count.specs.Faults.{HasRisenBy};
ghost use Rattle.rpc_turns.specs.Moments.{edges_of, outside, where_at};
ghost use Rattle.run_status.specs.Words.{lacks};
ghost use Rattle.serve_run.specs.Serving.{Serves, TurnsEnd};
ghost use Rattle.worker_crew.specs.Crews.{team_of};

use crate::run::ServeRun;
use command_line::ServeSpec;
use memory_count::Memory;
use rpc_outside::{Clock, Link, PlainDuty, Recorder, Sink};
use run_status::{Going, Status};
use std::sync::Wait;
use worker_crew::{Hand, Spawner};

// Makes turns until the run is over, and tells with which status.
fn turn_all<H: Wait + Drop, L: Link, C: Clock, R: Recorder>(
    memory: &mut Memory,
    run: &mut ServeRun<H>,
    link: &mut L,
    clock: &mut C,
    rec: &mut R,
) -> Status
    requires left { run.old.made < run.old.turns }
    ensures team { team_of run.new.endpoint.workers ≡ team_of run.old.endpoint.workers }
    ensures ends { TurnsEnd result (outside L.Link C.gave R.log)
        (where_at run.old link.old clock.old rec.old)
        (where_at run.new link.new clock.new rec.new) }
    ensures no_less { memory.old ≤ memory.new }
{
    'turns: loop {
        if let Going::Over(status) = run.turn(memory, link, clock, rec) {
            return status;
        }
    }
}

/// Serves at the address of the words for as many turns as they say, with a crew of as many hands,
/// which work its background calls whether or not the words name a server in `relay`, and writes a
/// line that counts what happened. `LinkFault` comes exactly where a fault of the link came,
/// `WriteFault` exactly where one of the sink did, and `NoMemory` only where memory was refused.
/// The spawner has no hand out before and after; it may wait for the hands.
pub fn serve<H, K, L, C, P, R>(
    memory: &mut Memory,
    rt: H,
    spec: &ServeSpec,
    sink: &mut K,
    link: &mut L,
    clock: &mut C,
    spawner: &mut P,
    rec: &mut R,
) -> Status
where
    H: Wait + Drop,
    K: Sink,
    L: Link,
    C: Clock,
    P: Spawner<Hand<PlainDuty>>,
    R: Recorder,
    requires range { IsServeInRange spec.now }
    requires none { P.hands_out spawner.old ≡ [] }
    ensures none { P.hands_out spawner.new ≡ [] }
    ensures serves { Serves result (outside L.Link C.gave R.log) spec.now
        (edges_of link.old clock.old rec.old) (edges_of link.new clock.new rec.new)
        (K.page sink.old) (K.page sink.new) }
    ensures cause { HasRisenBy (lacks result) memory.old memory.new }
{
    let mut run = match ServeRun::start(memory, rt, spec, link, spawner) {
        Ok(run) => run,
        Err(status) => return status,
    };
    match turn_all(memory, &mut run, link, clock, rec) {
        Status::Done => run.finish(spawner, sink),
        status => {
            run.stop(spawner);
            status
        }
    }
}
