//! The tasks that words ask for.
ghost use Rattle.std.specs.Prelude.{◌≡◌, [], map, Some};
ghost use Rattle.std.specs.String.{string_bytes};
ghost use Rattle.command_line.specs.Answers.{IsInRange};
ghost use Rattle.command_line.specs.Tasks.{task_of};
ghost use Rattle.rpc_tools.specs.Runs.{Runs, around};
ghost use Rattle.rpc_turns.specs.Moments.{edges_of, outside};

use crate::drill::drill;
use crate::report::audit_report;
use crate::serving::serve_as_told;
use crate::simulation::sim;
use command_line::{Task, WordsError, read_words};
use load_run::load;
use memory_count::Memory;
use rpc_outside::{Clock, Link, PlainDuty, Recorder, Sink, Source};
use run_status::Status;
use std::sync::Wait;
use worker_crew::{Hand, Spawner};

/// Does a task. The spawner has no hand out before and after.
fn run_task<H, S, K, L, C, P, R>(
    memory: &mut Memory,
    rt: H,
    task: &Task,
    source: &mut S,
    sink: &mut K,
    link: &mut L,
    clock: &mut C,
    spawner: &mut P,
    rec: &mut R,
) -> Status
where
    H: Wait + Drop,
    S: Source,
    K: Sink,
    L: Link,
    C: Clock,
    P: Spawner<Hand<PlainDuty>>,
    R: Recorder,
    requires range { IsInRange task.now }
    requires none { P.hands_out spawner.old ≡ [] }
    ensures none { P.hands_out spawner.new ≡ [] }
    ensures runs { Runs (outside L.Link C.gave R.log) (Some task.now) result
        (around (S.input source.old) (K.page sink.old) (edges_of link.old clock.old rec.old)
        spawner.old memory.old)
        (around (S.input source.new) (K.page sink.new) (edges_of link.new clock.new rec.new)
        spawner.new memory.new) }
{
    match task {
        Task::Sim => sim(memory, source, sink),
        Task::Drill { seed, calls } => drill(memory, *seed, *calls, sink),
        Task::Serve(spec) => serve_as_told(memory, rt, spec, sink, link, clock, spawner, rec),
        Task::Load(spec) => load(memory, rt, spec, sink, link, clock, rec),
        Task::Audit => audit_report(memory, source, sink),
    }
}

/// Does what the words ask for. The spawner has no hand out before and after.
pub(crate) fn run_words<H, S, K, L, C, P, R>(
    memory: &mut Memory,
    rt: H,
    words: &[String],
    source: &mut S,
    sink: &mut K,
    link: &mut L,
    clock: &mut C,
    spawner: &mut P,
    rec: &mut R,
) -> Status
where
    H: Wait + Drop,
    S: Source,
    K: Sink,
    L: Link,
    C: Clock,
    P: Spawner<Hand<PlainDuty>>,
    R: Recorder,
    requires none { P.hands_out spawner.old ≡ [] }
    ensures none { P.hands_out spawner.new ≡ [] }
    ensures runs { Runs (outside L.Link C.gave R.log) (task_of (map string_bytes words.now)) result
        (around (S.input source.old) (K.page sink.old) (edges_of link.old clock.old rec.old)
        spawner.old memory.old)
        (around (S.input source.new) (K.page sink.new) (edges_of link.new clock.new rec.new)
        spawner.new memory.new) }
{
    match read_words(memory, words) {
        Ok(task) => run_task(memory, rt, &task, source, sink, link, clock, spawner, rec),
        Err(WordsError::Usage) => Status::Usage,
        Err(WordsError::NoMemory) => Status::NoMemory,
    }
}
