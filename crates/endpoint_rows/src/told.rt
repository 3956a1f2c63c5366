//! Facts, compared as the lines of a report.
use crate::differs::Differs;
use memory_count::Memory;
use report_text::print_facts;
use rpc_outside::{MemRecorder, MemSink};

/// More bytes than the report of a row has.
const ROOM: u32 = 1 << 20;

// The lines of a report between its first and its last.
fn between(report: &str) -> Option<&str> {
    let (_first, rest) = report.split_once('\n')?;
    let (lines, _last) = rest.rsplit_once("end ")?;
    Some(lines)
}

/// The lines of the facts, as a report has them.
pub fn lines_of(memory: &mut Memory, recorder: &MemRecorder) -> Result<String, Differs> {
    let none = Vec::new(memory.alloc());
    let mut sink = MemSink::new(memory, ROOM, none)?;
    if print_facts(recorder.facts(), &mut sink).is_err() || !recorder.whole() {
        return Err(Differs::Memory);
    }
    let Ok(report) = str::from_utf8(sink.bytes()) else {
        return Err(Differs::Memory);
    };
    let lines = between(report).unwrap_or("");
    let copied = String::from_str(memory.alloc(), lines);
    Ok(memory.of(copied)?)
}

/// Goes on where the facts so far are those of these lines.
pub fn expect_facts(
    memory: &mut Memory,
    recorder: &MemRecorder,
    wanted: &str,
) -> Result<(), Differs> {
    let lines = lines_of(memory, recorder)?;
    if lines.as_str() == wanted {
        return Ok(());
    }
    Err(Differs::Facts(lines))
}
