//! Prints the script that a drill runs, so that it can be read, cut down and given to `erpc sim`.
#![tactic(auto)]

ghost use Rattle.std.specs.Prelude.{◌≤◌};

use command_line::{Task, WordsError, complaint, read_words};
use drill_maker::{MOST_CALLS, drill_script};
use memory_count::{Memory, NoMemory};
use script_help::ScriptText;
use std::alloc::AllocError;
use std::env;
use std::io::{self, BufWriter, Write};
use std::process::ExitCode;
use std::rt::Env;

// The words of a drill, of which the program's own words are the last two.
fn words_of(rt: &(impl Env + AllocGlobal)) -> io::Result<Vec<String>> {
    let mut words = Vec::new(rt.alloc());
    words.push(String::from_str(rt.alloc(), "drill")?)?;
    for word in env::args(rt)?.skip(1) {
        words.push(word).map_err(AllocError::from)?;
    }
    Ok(words)
}

fn no_memory(_none: NoMemory) -> io::Error {
    io::Error::from(io::ErrorKind::OutOfMemory)
}

fn print_drill(rt: &HostRuntime, memory: &mut Memory, seed: u64, calls: u32) -> io::Result<()>
    requires some { 1 ≤ calls }
    requires most { calls ≤ MOST_CALLS }
{
    let script = drill_script(memory, seed, calls).map_err(no_memory)?;
    let mut writer = BufWriter::new(rt.alloc(), rt.stdout())?;
    write!(writer, "{}", ScriptText(script.lines()))?;
    writer.flush()
}

fn main(rt: HostRuntime) -> io::Result<ExitCode> {
    let words = words_of(&rt)?;
    let mut memory = Memory::new(rt.alloc());
    match read_words(&mut memory, words.as_slice()) {
        Ok(Task::Drill { seed, calls }) => {
            print_drill(&rt, &mut memory, seed, calls)?;
            Ok(ExitCode::SUCCESS)
        }
        Err(WordsError::NoMemory) => Err(no_memory(NoMemory)),
        _ => {
            let text = complaint(&mut memory, words.as_slice()).map_err(no_memory)?;
            eprintln!(rt; "drill_script: {text}")?;
            Ok(ExitCode::FAILURE)
        }
    }
}
