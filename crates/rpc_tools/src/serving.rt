//! `serve`, by hands or by another server.
ghost use Rattle.std.specs.Prelude.{◌≡◌, [], option_map};
ghost use Rattle.command_line.specs.Answers.{IsServeInRange};
ghost use Rattle.memory_count.specs.Faults.{HasRisenBy};
ghost use Rattle.rpc_tools.specs.Servers.{Serves};
ghost use Rattle.rpc_turns.specs.Moments.{edges_of, outside};
ghost use Rattle.run_status.specs.Words.{lacks};

use command_line::ServeSpec;
use memory_count::Memory;
use relay_run::relay;
use rpc_outside::{Clock, Link, PlainDuty, Recorder, Sink};
use run_status::Status;
use serve_run::serve;
use std::sync::Wait;
use worker_crew::{Hand, Spawner};

// The address of the server that is asked for background calls, where the words name one.
fn other_server(spec: &ServeSpec) -> Option<&str>
    ensures { spec.now.relay ≡ option_map (λ addr. addr.now) result }
{
    match &spec.relay {
        None => None,
        Some(addr) => Some(addr.as_str()),
    }
}

/// Serves as the words say: with hands for background calls, or with another server that is asked
/// for them. The spawner has no hand out before and after.
pub(crate) fn serve_as_told<H, K, L, C, P, R>(
    memory: &mut Memory,
    rt: H,
    spec: &ServeSpec,
    sink: &mut K,
    link: &mut L,
    clock: &mut C,
    spawner: &mut P,
    rec: &mut R,
) -> Status
where
    H: Wait + Drop,
    K: Sink,
    L: Link,
    C: Clock,
    P: Spawner<Hand<PlainDuty>>,
    R: Recorder,
    requires range { IsServeInRange spec.now }
    requires none { P.hands_out spawner.old ≡ [] }
    ensures none { P.hands_out spawner.new ≡ [] }
    ensures serves { Serves result (outside L.Link C.gave R.log) spec.now
        (edges_of link.old clock.old rec.old) (edges_of link.new clock.new rec.new)
        (K.page sink.old) (K.page sink.new) }
    ensures cause { HasRisenBy (lacks result) memory.old memory.new }
{
    match other_server(spec) {
        None => serve(memory, rt, spec, sink, link, clock, spawner, rec),
        Some(other) => relay(memory, spec, other, sink, link, clock, rec),
    }
}
