//! A turn of a run that relays.
ghost use Rattle.std.specs.Prelude.{◌≡◌, ◌≤◌, [], IfErr, IfOk, MatchResult, OnOk};
ghost use Rattle.deferred_calls.specs.Desks.{HasNumbers};
ghost use Rattle.desk_laws.specs.Staying.{desk_members, with_desk};
ghost use Rattle.endpoint_loop.specs.Polls.{turn_of};
ghost use Rattle.relay_steps.specs.Passing.{GoesPast, relayed};
ghost use Rattle.relay_turns.specs.Turning.{RelaysAll, RelaysTurn, SettlesAll, UnlessWanting};
ghost use Rattle.relay_turns.specs.Turning.{lacks_for, relayer};
ghost use Rattle.relay_turns.specs.Working.{IsAtWork};
ghost use Rattle.relay_turns.specs.declared.turn.TurnFault.TheVariants.{LinkFault as Failed};
ghost use Rattle.relays.specs.Relaying.{Stands};
ghost use Rattle.memory_count.specs.Faults.{HasReason, HasRisen, HasRisenBy};
ghost use Rattle.rpc_turns.specs.Moments.{outside, where_at};
ghost use Rattle.rpc_turns.specs.Turns.{RunsOn};

use deferred_calls::{Checked, Desk};
use endpoint_loop::{Endpoint, Turn};
use memory_count::{Memory, NoMemory};
use relay_steps::{pass_all, settle_one};
use relays::Relays;
use rpc_outside::{Clock, Link, Recorder, Service};
use rpc_turns::{Ended, Rest, take_turn};
use std::error::Error;
use std::fmt;

/// Why a turn of a run that relays ends the run.
#[derive(Clone, Copy, Debug, PartialEq, Eq)]
pub enum TurnFault {
    /// The link failed, and all else of the turn was done.
    LinkFault,
    /// Memory was refused for the call of a job, or to keep a call that was over. Jobs may wait
    /// then, or be lost with their handles.
    NoMemory,
}

impl fmt::Display for TurnFault {
    fn fmt<W: fmt::Write>(&self, f: &mut fmt::Formatter<W>) -> fmt::Result {
        match self {
            TurnFault::LinkFault => f.write_str("the link failed"),
            TurnFault::NoMemory => write!(f, "{}", NoMemory),
        }
    }
}

impl Error for TurnFault {}

// No two jobs of a desk whose handles are out have one number.
fn numbers_of<D: Checked>(desk: &Desk<D>)
    ensures { HasNumbers desk.now.handled }
{
    desk.sound();
}

// The same of an endpoint's desk.
fn numbers<V: Service, D: Checked>(endpoint: &mut Endpoint<V, Desk<D>>)
    ensures same { endpoint.new ≡ endpoint.old }
    ensures numbers { HasNumbers endpoint.old.workers.handled }
{
    numbers_of(endpoint.workers());
}

// Settles the ends of these calls, in order.
fn settle_all<V: Service, D: Checked>(
    endpoint: &mut Endpoint<V, Desk<D>>,
    relays: &mut Relays,
    ended: &mut Ended,
)
    requires stands { Stands endpoint.old.workers [] relays.old }
    ensures others { endpoint.new ≡ with_desk endpoint.old endpoint.new.workers }
    ensures stands { Stands endpoint.new.workers [] relays.new }
    ensures settles { SettlesAll D.answer ended.old.dones.items endpoint.old.workers
        endpoint.new.workers relays.old relays.new }
{
    'ends: while let Some(done) = ended.take() {
        settle_one(endpoint, relays, &done);
    }
}

// Settles the ends of these calls, and passes on each job that waits. `NoMemory` comes where memory
// was refused to keep a call that was over, and then nothing is done, and where it is refused for
// the call of a job.
fn relay_all<V: Service, D: Checked, R: Recorder>(
    memory: &mut Memory,
    endpoint: &mut Endpoint<V, Desk<D>>,
    relays: &mut Relays,
    ended: &mut Ended,
    rec: &mut R,
) -> Result<(), NoMemory>
    requires stands { Stands endpoint.old.workers [] relays.old }
    ensures whole { OnOk result (ended.old.memory ≡ 0) }
    ensures relays { OnOk result (RelaysAll R.log V.Service D.answer ended.old.dones.items
        (relayed endpoint.old relays.old) (relayed endpoint.new relays.new) rec.old rec.new) }
    ensures goes_on { GoesPast R.log V.Service D.answer endpoint.old endpoint.new rec.old rec.new }
    ensures cause { HasReason memory.old memory.new result }
{
    numbers(endpoint);
    ended.check(memory)?;
    settle_all(endpoint, relays, ended);
    pass_all(memory, endpoint, relays, rec)
}

/// A turn of a run that relays: the endpoint makes a turn as `take_turn` has it; then each call
/// that was over in it is settled, in order; and then each job that was given gets its handle and
/// is asked of the other server, or worked here where that is refused. So no job waits behind it.
/// `NoMemory` comes only where memory was refused for the call of a job or to keep a call that was
/// over, and otherwise `LinkFault` comes exactly where a fault of the link came; all is done then
/// as without one.
pub fn relay_turn<V, D, L, C, R>(
    memory: &mut Memory,
    endpoint: &mut Endpoint<V, Desk<D>>,
    rest: &mut Rest,
    relays: &mut Relays,
    link: &mut L,
    clock: &mut C,
    rec: &mut R,
) -> Result<Turn, TurnFault>
where
    V: Service,
    D: Checked,
    L: Link,
    C: Clock,
    R: Recorder,
    requires works { IsAtWork V.Service D.answer (relayed endpoint.old relays.old) }
    ensures relays { UnlessWanting result (RelaysTurn V.Service D.answer
        (outside L.Link C.gave R.log) (turn_of result)
        (where_at (relayer endpoint.old rest.old relays.old) link.old clock.old rec.old)
        (where_at (relayer endpoint.new rest.new relays.new) link.new clock.new rec.new)) }
    ensures works { UnlessWanting result
        (IsAtWork V.Service D.answer (relayed endpoint.new relays.new)) }
    ensures runs { RunsOn V.Service (desk_members D.answer) (outside L.Link C.gave R.log)
        (where_at endpoint.old link.old clock.old rec.old)
        (where_at endpoint.new link.new clock.new rec.new) 1 }
    ensures quiet { IfOk result (λ turn. L.faults link.new ≡ L.faults link.old) }
    ensures fault { IfErr result
        (λ why. why ≡ Failed → HasRisen (L.faults link.old) (L.faults link.new)) }
    ensures cause { MatchResult result (λ _. memory.old ≤ memory.new)
        (λ why. HasRisenBy (lacks_for why) memory.old memory.new) }
{
    let mut ended = Ended::new(memory.alloc());
    let turned = take_turn(memory, endpoint, rest, link, clock, &mut ended, rec);
    match relay_all(memory, endpoint, relays, &mut ended, rec) {
        Err(_) => Err(TurnFault::NoMemory),
        Ok(()) => match turned {
            Ok(turn) => Ok(turn),
            Err(_) => Err(TurnFault::LinkFault),
        },
    }
}
