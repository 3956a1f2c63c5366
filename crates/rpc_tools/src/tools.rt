//! The top call.
ghost use Rattle.std.specs.Prelude.{◌≡◌, ◌≢◌, ℕ, List, [], map, Some, None, Ok};
ghost use Rattle.std.specs.String.{string_bytes};
ghost use Rattle.command_line.specs.Tasks.{task_of};
ghost use Rattle.command_line.specs.Words.{LoadWords, ServeWords};
ghost use Rattle.count_line.specs.declared.audit.AuditLine.{AuditLine};
ghost use Rattle.load_run.specs.Loading.{Loads};
ghost use Rattle.rpc_tools.specs.Alone.{StartsNone, StaysAlone};
ghost use Rattle.rpc_tools.specs.Audits.{Answers, Audits, Says};
ghost use Rattle.memory_count.specs.Faults.{HasRisenBy, IsQuiet};
ghost use Rattle.rpc_tools.specs.Drills.{Drills, Succeeds as DrillSucceeds};
ghost use Rattle.rpc_tools.specs.Outcomes.{NothingDone, Simulates, Succeeds, Unmoved};
ghost use Rattle.rpc_tools.specs.Servers.{Serves};
ghost use Rattle.rpc_turns.specs.Moments.{edges_of, outside};
ghost use Rattle.run_status.specs.Words.{lacks};
ghost use Rattle.script_grammar.specs.declared.line.Line.{Line};
ghost use Rattle.script_grammar.specs.Script.{script_of};

use crate::tasks::run_words;
use command_line::Task;
use memory_count::Memory;
use rpc_outside::{Clock, Link, PlainDuty, Recorder, Sink, Source};
use run_status::Status;
use std::sync::Wait;
use worker_crew::{Hand, Spawner};

/// Runs the program on the words after its name. `sim` reads a script from the source and writes
/// the report of its history to the sink. `audit` reads a report, and writes a line that says
/// whether it is that of a lawful history. `drill SEED CALLS` runs a script that it makes, and
/// writes a line that counts what happened. `serve` answers calls that come to the link, and `load`
/// asks them: each turns by turn of the clock, its node's facts go to the recorder, and in the end
/// it writes a line of counts. `serve` works background calls by hands that it offers to the
/// spawner, which has no hand out before and after; it may wait for them, by the handle `rt`. With
/// `--relay` it offers none, and asks those calls of another server. Words that are in no row of
/// the command line are `Usage`. `NoMemory` comes only where memory was refused.
pub fn run<H, S, K, L, C, P, R>(
    memory: &mut Memory,
    rt: H,
    words: &[String],
    source: &mut S,
    sink: &mut K,
    link: &mut L,
    clock: &mut C,
    spawner: &mut P,
    rec: &mut R,
) -> Status
where
    H: Wait + Drop,
    S: Source,
    K: Sink,
    L: Link,
    C: Clock,
    P: Spawner<Hand<PlainDuty>>,
    R: Recorder,
    requires none { P.hands_out spawner.old ≡ [] }
    ensures none { P.hands_out spawner.new ≡ [] }
    ensures starts_none { StartsNone (task_of (map string_bytes words.now)) spawner.old
        spawner.new }
    ensures usage { result ≡ Status.Usage → task_of (map string_bytes words.now) ≡ None }
    ensures no_task { task_of (map string_bytes words.now) ≡ None → IsQuiet memory.old memory.new
        → result ≡ Status.Usage }
    ensures cause { HasRisenBy (lacks result) memory.old memory.new }
    ensures refuses { result ≡ Status.Usage → NothingDone (S.input source.old) (S.input source.new)
        (K.page sink.old) (K.page sink.new) }
    ensures simulates { task_of (map string_bytes words.now) ≡ Some Task.Sim
        → Simulates result (S.input source.old) (S.input source.new) (K.page sink.old)
        (K.page sink.new) }
    ensures headline { (bytes : List ℕ) (script : List Line)
        → task_of (map string_bytes words.now) ≡ Some Task.Sim
        → (S.input source.old).left ≡ Some bytes → script_of bytes ≡ Ok script
        → IsQuiet (S.input source.old).faults (S.input source.new).faults
        → IsQuiet (K.page sink.old).faults (K.page sink.new).faults
        → IsQuiet memory.old memory.new
        → Succeeds script result (S.input source.new) (K.page sink.old) (K.page sink.new) }
    ensures drills { (seed calls : ℕ)
        → task_of (map string_bytes words.now) ≡ Some (Task.Drill seed calls)
        → Drills result seed calls (K.page sink.old) (K.page sink.new) }
    ensures audits { task_of (map string_bytes words.now) ≡ Some Task.Audit
        → Audits result (S.input source.old) (S.input source.new) (K.page sink.old)
        (K.page sink.new) }
    ensures answers { (bytes : List ℕ) (line : AuditLine)
        → task_of (map string_bytes words.now) ≡ Some Task.Audit
        → (S.input source.old).left ≡ Some bytes → Says bytes line
        → IsQuiet (S.input source.old).faults (S.input source.new).faults
        → IsQuiet (K.page sink.old).faults (K.page sink.new).faults
        → result ≢ Status.NoMemory
        → Answers line result (S.input source.new) (K.page sink.old) (K.page sink.new) }
    ensures reads_nothing { task_of (map string_bytes words.now) ≢ Some Task.Sim
        → task_of (map string_bytes words.now) ≢ Some Task.Audit
        → Unmoved (S.input source.old) (S.input source.new) }
    ensures serves { (words' : ServeWords)
        → task_of (map string_bytes words.now) ≡ Some (Task.Serve words')
        → Serves result (outside L.Link C.gave R.log) words'
        (edges_of link.old clock.old rec.old) (edges_of link.new clock.new rec.new)
        (K.page sink.old) (K.page sink.new) }
    ensures loads { (words' : LoadWords)
        → task_of (map string_bytes words.now) ≡ Some (Task.Load words')
        → Loads result (outside L.Link C.gave R.log) words'
        (edges_of link.old clock.old rec.old) (edges_of link.new clock.new rec.new)
        (K.page sink.old) (K.page sink.new) }
    ensures alone { StaysAlone (task_of (map string_bytes words.now)) link.old link.new clock.old
        clock.new rec.old rec.new }
    ensures drilled { (seed calls : ℕ)
        → task_of (map string_bytes words.now) ≡ Some (Task.Drill seed calls)
        → IsQuiet (K.page sink.old).faults (K.page sink.new).faults
        → IsQuiet memory.old memory.new
        → DrillSucceeds result seed calls (K.page sink.old) (K.page sink.new) }
{
    run_words(memory, rt, words, source, sink, link, clock, spawner, rec)
}
