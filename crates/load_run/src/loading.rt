//! `load`, from its start to its end.
ghost use Rattle.std.specs.Prelude.{◌<◌};
ghost use Rattle.memory_count.specs.Faults.{HasRisenBy};
ghost use Rattle.command_line.specs.Answers.{IsLoadInRange};
ghost use Rattle.load_run.specs.Loading.{Loads, TurnsEnd};
ghost use Rattle.rpc_turns.specs.Moments.{edges_of, outside, where_at};
ghost use Rattle.rpc_turns.specs.Plain.{GoesOnBy};
ghost use Rattle.run_status.specs.Words.{lacks};

use crate::run::LoadRun;
use command_line::LoadSpec;
use memory_count::Memory;
use rpc_outside::{Clock, Link, Recorder, Sink};
use run_status::{Going, Status};
use std::sync::Wait;

// Makes turns until the run is over, and tells with which status.
fn turn_all<H: Wait + Drop, L: Link, C: Clock, R: Recorder>(
    memory: &mut Memory,
    run: &mut LoadRun<H>,
    link: &mut L,
    clock: &mut C,
    rec: &mut R,
) -> Status
    requires left { run.old.made < run.old.turns }
    ensures ends { TurnsEnd result (outside L.Link C.gave R.log)
        (where_at run.old link.old clock.old rec.old)
        (where_at run.new link.new clock.new rec.new) }
    ensures goes_on { GoesOnBy R.log run.old.endpoint run.new.endpoint rec.old rec.new }
    ensures cause { HasRisenBy (lacks result) memory.old memory.new }
{
    'turns: loop {
        if let Going::Over(status) = run.turn(memory, link, clock, rec) {
            return status;
        }
    }
}

/// Asks the calls that the words say of the server at their address, and writes a line that counts
/// how they ended. `LinkFault` comes exactly where a fault of the link came, `WriteFault` exactly
/// where one of the sink did, and `NoMemory` only where memory was refused. `Done` comes where the
/// session is over, all calls were asked and each ended well with a right answer, `CallsFailed`
/// where it is over and one didn't, and `TurnsSpent` where it isn't over and all turns are made.
pub fn load<H: Wait + Drop, K: Sink, L: Link, C: Clock, R: Recorder>(
    memory: &mut Memory,
    rt: H,
    spec: &LoadSpec,
    sink: &mut K,
    link: &mut L,
    clock: &mut C,
    rec: &mut R,
) -> Status
    requires { IsLoadInRange spec.now }
    ensures loads { Loads result (outside L.Link C.gave R.log) spec.now
        (edges_of link.old clock.old rec.old) (edges_of link.new clock.new rec.new)
        (K.page sink.old) (K.page sink.new) }
    ensures cause { HasRisenBy (lacks result) memory.old memory.new }
{
    let mut run = match LoadRun::start(memory, rt, spec, link, rec) {
        Ok(run) => run,
        Err(status) => return status,
    };
    match turn_all(memory, &mut run, link, clock, rec) {
        status @ (Status::LinkFault | Status::NoMemory) => {
            run.stop();
            status
        }
        _ => run.finish(sink),
    }
}
