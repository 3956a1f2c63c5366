//! Reads a report on standard input and writes its picture, an SVG file, on standard output. With
//! the word `rows` it compares the pictures of its folder's reports with those beside them before,
//! reads texts that are no report, and tells a line of each.
#![tactic(auto)]

mod rows;

use memory_count::{Memory, NoMemory};
use picture_svg::{Layout, Svg};
use report_reader::{Reading, read_report};
use rpc_base::Fact;
use sequence_picture::draw;
use std::env;
use std::io::{self, Read, Write};
use std::process::ExitCode;
use std::rt::Env;

/// The most facts that a picture is made of: more are no picture to be read.
const MOST_FACTS: usize = 2_000;

// The failure of a reader or writer that had no memory.
fn no_memory(_lack: NoMemory) -> io::Error {
    io::Error::from(io::ErrorKind::OutOfMemory)
}

// The picture of a history.
fn picture_of(memory: &mut Memory, facts: &[Fact]) -> io::Result<String> {
    let drawn = draw(memory, facts).map_err(no_memory)?;
    let layout = Layout::new(memory, facts).map_err(no_memory)?;
    let svg = Svg {
        facts,
        drawn: drawn.as_slice(),
        layout: &layout,
    };
    Ok(format!(in memory.alloc(); "{svg}")?)
}

// Whether the word behind the program's name asks for the rows.
fn wants_rows(rt: &(impl Env + AllocGlobal)) -> io::Result<bool> {
    let mut words = env::args(rt)?;
    let _program = words.next();
    match words.next() {
        Some(word) => Ok(word.as_str() == "rows"),
        None => Ok(false),
    }
}

fn main(rt: HostRuntime) -> io::Result<ExitCode> {
    if wants_rows(&rt)? {
        rows::tell_all(rt)?;
    }
    let mut bytes = Vec::new(rt.alloc());
    rt.stdin().read_to_end(&mut bytes)?;
    let memory = &mut Memory::new(rt.alloc());
    match read_report(memory, bytes.as_slice()).map_err(no_memory)? {
        Reading::Whole(facts) if facts.len() > MOST_FACTS => {
            eprintln!(rt; "report_picture: more than {MOST_FACTS} facts are no picture")?;
            Ok(ExitCode::FAILURE)
        }
        Reading::Whole(facts) => {
            let picture = picture_of(memory, facts.as_slice())?;
            print!(rt; "{picture}")?;
            Ok(ExitCode::SUCCESS)
        }
        Reading::Bad(line) => {
            eprintln!(rt; "report_picture: line {line} is none of a report")?;
            Ok(ExitCode::FAILURE)
        }
    }
}
