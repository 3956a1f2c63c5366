//! Scripts: their commands, or the first line that is bad; and the text of a drill's script.
use crate::text::bytes_of;
use drill_maker::{MOST_CALLS, drill_script};
use memory_count::Memory;
use script_grammar::{ReadError, Script, read};
use script_help::{Explanation, ScriptText};
use std::io;

/// Tells each command with its line, or the first bad line and why.
pub fn tell(rt: &(impl Print + AllocGlobal), row: &str) -> io::Result<()> {
    let text = bytes_of(rt.alloc(), row)?;
    match read(&mut Memory::new(rt.alloc()), text.as_slice()) {
        Ok(script) => {
            for line in script.lines() {
                println!(rt; "  {} {:?}", line.number, line.command)?;
            }
            Ok(())
        }
        Err(ReadError::Bad(bad)) => println!(rt; "  {bad}"),
        Err(ReadError::NoMemory) => println!(rt; "  no memory"),
    }
}

/// Tells what a user reads of a bad script.
pub fn explain(rt: &(impl Print + AllocGlobal), row: &str) -> io::Result<()> {
    let text = bytes_of(rt.alloc(), row)?;
    match read(&mut Memory::new(rt.alloc()), text.as_slice()) {
        Err(ReadError::Bad(bad)) => println!(rt; "  {}", Explanation::of(text.as_slice(), bad)),
        _ => println!(rt; "  no bad line"),
    }
}

// The seed of a drill and how many calls it has.
fn numbers_of(row: &str) -> Option<(u64, u32)> {
    let (seed, calls) = row.split_once(' ')?;
    Some((seed.parse::<u64>().ok()?, calls.parse::<u32>().ok()?))
}

// Whether the text of a script is read as that script.
fn is_read_back(memory: &mut Memory, script: &Script) -> io::Result<bool> {
    let alloc = memory.alloc();
    let text = format!(in alloc; "{}", ScriptText(script.lines()))?;
    let Ok(back) = read(memory, text.as_bytes()) else {
        return Ok(false);
    };
    let wanted = format!(in alloc; "{:?}", script.lines())?;
    let got = format!(in alloc; "{:?}", back.lines())?;
    Ok(got.as_str() == wanted.as_str())
}

/// Tells whether the text of a drill's script is read as that script.
pub fn drill(rt: &(impl Print + AllocGlobal), row: &str) -> io::Result<()> {
    let (seed, calls) = numbers_of(row).unwrap_or((0, 0));
    if calls < 1 || MOST_CALLS < calls {
        return println!(rt; "  no row");
    }
    let mut memory = Memory::new(rt.alloc());
    let Ok(script) = drill_script(&mut memory, seed, calls) else {
        return println!(rt; "  no memory");
    };
    let is_same = is_read_back(&mut memory, &script)?;
    println!(rt; "  read as it was made: {is_same}")
}
