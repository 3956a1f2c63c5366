//! A drill: the script that a number makes is run, and its history counted.
ghost use Rattle.std.specs.Prelude.{◌≤◌, IfOk};
ghost use Rattle.memory_count.specs.Faults.{HasReason, HasRisenBy};
ghost use Rattle.rpc_tools.specs.Drills.{Drills, IsDrillHistory};
ghost use Rattle.run_status.specs.Words.{lacks};

use drill_line::{count, drill_line};
use drill_maker::{MOST_CALLS, drill_script};
use memory_count::{Memory, NoMemory};
use rpc_outside::{Sink, write_all};
use rpc_world::World;
use run_status::Status;

/// The world that the script of a drill left.
fn drilled_world(memory: &mut Memory, seed: u64, calls: u32) -> Result<World, NoMemory>
    requires some { 1 ≤ calls }
    requires most { calls ≤ MOST_CALLS }
    ensures drilled { IfOk result (λ world. IsDrillHistory seed calls world) }
    ensures cause { HasReason memory.old memory.new result }
{
    let script = drill_script(memory, seed, calls)?;
    let world = World::run(memory, &script)?;
    Ok(world)
}

// Writes the line that counts what happened in the world that a drill left.
fn write_counts<K: Sink>(
    memory: &mut Memory,
    world: &World,
    seed: u64,
    calls: u32,
    sink: &mut K,
) -> Status
    requires drilled { IsDrillHistory seed calls world.now }
    ensures drills { Drills result seed calls (K.page sink.old) (K.page sink.new) }
    ensures cause { HasRisenBy (lacks result) memory.old memory.new }
{
    let counts = count(world.history().facts());
    let Ok(line) = drill_line(memory, seed, calls, counts) else {
        return Status::NoMemory;
    };
    match write_all(sink, line.as_bytes()) {
        Ok(()) => Status::Done,
        Err(_) => Status::WriteFault,
    }
}

/// Runs the script of a drill and writes the line that counts what happened. `NoMemory` comes only
/// where memory was refused.
pub fn drill<K: Sink>(memory: &mut Memory, seed: u64, calls: u32, sink: &mut K) -> Status
    requires some { 1 ≤ calls }
    requires most { calls ≤ MOST_CALLS }
    ensures drills { Drills result seed calls (K.page sink.old) (K.page sink.new) }
    ensures cause { HasRisenBy (lacks result) memory.old memory.new }
{
    match drilled_world(memory, seed, calls) {
        Ok(world) => write_counts(memory, &world, seed, calls, sink),
        Err(_) => Status::NoMemory,
    }
}
