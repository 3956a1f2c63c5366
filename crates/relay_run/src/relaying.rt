//! `serve --relay`, from its start to its end.
ghost use Rattle.std.specs.Prelude.{◌<◌};
ghost use Rattle.command_line.specs.Answers.{IsServeInRange};
ghost use Rattle.memory_count.specs.Faults.{HasRisenBy};
ghost use Rattle.relay_run.specs.Runs.{IsRelaying, Relays, TurnsEnd};
ghost use Rattle.rpc_turns.specs.Moments.{edges_of, outside, where_at};
ghost use Rattle.run_status.specs.Words.{lacks};

use crate::run::RelayRun;
use command_line::ServeSpec;
use memory_count::Memory;
use relay_turns::turns_note;
use rpc_outside::{Clock, Link, PlainDuty, PlainService, Recorder, Sink};
use run_status::{Going, Status};

// Makes turns until the run is over, and tells with which status.
fn turn_all<L: Link, C: Clock, R: Recorder>(
    memory: &mut Memory,
    run: &mut RelayRun,
    link: &mut L,
    clock: &mut C,
    rec: &mut R,
) -> Status
    requires left { run.old.made < run.old.turns }
    requires works { IsRelaying run.old }
    ensures ends { TurnsEnd result (outside L.Link C.gave R.log)
        (where_at run.old link.old clock.old rec.old)
        (where_at run.new link.new clock.new rec.new) }
    ensures cause { HasRisenBy (lacks result) memory.old memory.new }
{
    'turns: loop {
        if let Going::Over(status) = run.turn(memory, link, clock, rec) {
            return status;
        }
    }
}

/// Serves at the address of the words for as many turns as they say, asks its background calls of
/// the server at the other address, and writes a line that counts what happened. `LinkFault` comes
/// only where a fault of the link came, `WriteFault` exactly where one of the sink did, and
/// `NoMemory` only where memory was refused.
pub fn relay<K: Sink, L: Link, C: Clock, R: Recorder>(
    memory: &mut Memory,
    spec: &ServeSpec,
    other: &str,
    sink: &mut K,
    link: &mut L,
    clock: &mut C,
    rec: &mut R,
) -> Status
    requires range { IsServeInRange spec.now }
    ensures relays { Relays result (outside L.Link C.gave R.log) spec.now other.now
        (edges_of link.old clock.old rec.old) (edges_of link.new clock.new rec.new)
        (K.page sink.old) (K.page sink.new) }
    ensures cause { HasRisenBy (lacks result) memory.old memory.new }
{
    let mut run = match RelayRun::start(memory, spec, other, link, rec) {
        Ok(run) => run,
        Err(status) => return status,
    };
    turns_note::<PlainService, PlainDuty, L, C, R>();
    match turn_all(memory, &mut run, link, clock, rec) {
        Status::Done => run.finish(sink),
        status => {
            run.stop();
            status
        }
    }
}
