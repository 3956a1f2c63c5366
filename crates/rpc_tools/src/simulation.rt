//! A simulation: a script is read, run over a modelled network, and its history reported.
ghost use Rattle.std.specs.Prelude.{◌≡◌, ℕ, List, Some, Ok};
ghost use Rattle.memory_count.specs.Faults.{HasRisenBy, IsQuiet};
ghost use Rattle.rpc_tools.specs.Outcomes.{RunsBytes, RunsScript, Simulates, Succeeds};
ghost use Rattle.run_status.specs.Words.{lacks};
ghost use Rattle.script_grammar.specs.declared.line.Line.{Line};
ghost use Rattle.script_grammar.specs.Script.{script_of};

use crate::reading::{Input, read_all};
use memory_count::Memory;
use rpc_outside::{Sink, Source};
use rpc_world::World;
use run_status::Status;
use script_grammar::MOST_BYTES;
use sim_script::{BadScript, BadWhy, ReadError, Script, print, read};

fn run_script<K: Sink>(memory: &mut Memory, script: &Script, sink: &mut K) -> Status
    ensures runs { RunsScript result script.now (K.page sink.old) (K.page sink.new) }
    ensures cause { HasRisenBy (lacks result) memory.old memory.new }
{
    let Ok(world) = World::run(memory, script) else {
        return Status::NoMemory;
    };
    match print(world.history(), sink) {
        Ok(()) => Status::Done,
        Err(_) => Status::WriteFault,
    }
}

fn run_bytes<K: Sink>(memory: &mut Memory, bytes: &[u8], sink: &mut K) -> Status
    ensures runs { RunsBytes result bytes.now (K.page sink.old) (K.page sink.new) }
    ensures cause { HasRisenBy (lacks result) memory.old memory.new }
{
    match read(memory, bytes) {
        Ok(script) => run_script(memory, &script, sink),
        Err(ReadError::Bad(bad)) => Status::BadScript(bad),
        Err(ReadError::NoMemory) => Status::NoMemory,
    }
}

/// Reads the source to its end, runs the script and writes the report of its history. It waits for
/// nothing. `NoMemory` comes only where memory was refused.
pub fn sim<S: Source, K: Sink>(memory: &mut Memory, source: &mut S, sink: &mut K) -> Status
    ensures simulates { Simulates result (S.input source.old) (S.input source.new) (K.page sink.old)
        (K.page sink.new) }
    ensures headline { (bytes : List ℕ) (script : List Line)
        → (S.input source.old).left ≡ Some bytes → script_of bytes ≡ Ok script
        → IsQuiet (S.input source.old).faults (S.input source.new).faults
        → IsQuiet (K.page sink.old).faults (K.page sink.new).faults
        → IsQuiet memory.old memory.new
        → Succeeds script result (S.input source.new) (K.page sink.old) (K.page sink.new) }
    ensures cause { HasRisenBy (lacks result) memory.old memory.new }
{
    match read_all(memory, source, MOST_BYTES) {
        Input::Whole(bytes) => run_bytes(memory, bytes.bytes(), sink),
        Input::TooLong => Status::BadScript(BadScript {
            line: 0,
            why: BadWhy::TooLong,
        }),
        Input::Fault => Status::ReadFault,
        Input::Memory => Status::NoMemory,
    }
}
