//! Rows of lines of words: what is run over what, and how it has to end. The lines of a row are its
//! fields, a name and what stands behind it, in any order; other lines are remarks.
//!
//! ```text
//! words LINE         what the program is run on
//! source FILE        the source has its bytes; none without this line
//! step MICROSECONDS  how far the clock goes on at each look, else not at all
//! fails KIND CALL    this call fails, a `read`, a `write` or one of the `link`, the first being 0
//! each KIND CALLS    the run makes so many calls of its kind; in runs of their own each of them
//!                    fails in turn, which ends that run, with what was written before it
//! ends TEXT          what is told of how the run ends
//! writes LINE        what is written, but for its line feed; nothing without this line
//! report FILE        what is written, in its place
//! requests COUNT     so many requests to connect are sent, else none, and nothing else
//! hands COUNT        so many hands are offered to a spawner, which hands each back, else none
//! ```
use crate::outside::{Fault, Kind};
use crate::reports::is_front;
use crate::runs::{Ran, run_line};
use rpc_tools::Status;
use std::rt::Files;
use std::sync::Wait;
use std::{fs, io};

// What stands behind this name in a row, nothing where no line begins with it.
fn field<'a>(row: &'a str, name: &str) -> &'a str {
    for line in row.lines() {
        match line.split_once(' ') {
            Some((first, rest)) if first == name => return rest,
            _ => {}
        }
    }
    ""
}

// The number that stands behind this name in a row, 0 where none does.
fn number(row: &str, name: &str) -> u64 {
    field(row, name).parse::<u64>().unwrap_or(0)
}

fn kind_of(word: &str) -> Option<Kind> {
    match word {
        "read" => Some(Kind::Read),
        "write" => Some(Kind::Write),
        "link" => Some(Kind::Link),
        _ => None,
    }
}

// The kind and the number that stand behind this name in a row, if they do.
fn fault_of(row: &str, name: &str) -> Option<Fault> {
    let (kind, call) = field(row, name).split_once(' ')?;
    Some(Fault {
        kind: kind_of(kind)?,
        call: call.parse::<u64>().ok()?,
    })
}

// What has to be written.
fn wanted<H: Files + AllocGlobal>(rt: &H, row: &str) -> io::Result<String> {
    let (report, line) = (field(row, "report"), field(row, "writes"));
    if !report.is_empty() {
        return fs::read_to_string(rt, report);
    }
    if line.is_empty() {
        return Ok(String::new(rt.alloc()));
    }
    Ok(format!(in rt.alloc(); "{line}\n")?)
}

fn source<H: Files + AllocGlobal>(rt: &H, row: &str) -> io::Result<Vec<u8>> {
    match field(row, "source") {
        "" => Ok(Vec::new(rt.alloc())),
        file => fs::read(rt, file),
    }
}

// Runs a row over a source with these bytes, of which this call fails.
fn run_row<H: AllocGlobal + Wait + Copy + Drop>(
    rt: H,
    row: &str,
    bytes: &[u8],
    fault: Option<Fault>,
) -> io::Result<Ran> {
    run_line(rt, field(row, "words"), bytes, fault, number(row, "step"))
}

// Whether a run ended, wrote, sent and offered what the row tells.
fn is_wanted<H: Files + AllocGlobal>(rt: &H, row: &str, ran: &Ran) -> io::Result<bool> {
    let ended = format!(in rt.alloc(); "{}", ran.status)?;
    let wanted = wanted(rt, row)?;
    let is_told = ended.as_str() == field(row, "ends") && ran.text.as_str() == wanted.as_str();
    let Some(requests) = ran.requests else {
        return Ok(false);
    };
    let are_sent = u64::from(requests) == number(row, "requests");
    Ok(is_told && are_sent && ran.hands == number(row, "hands"))
}

// Whether a run that met this fault ended by it, and wrote the lines of a text that came before it.
fn is_met(ran: &Ran, fault: Fault, whole: &str) -> bool {
    let text = ran.text.as_str();
    match (fault.kind, ran.status) {
        (Kind::Read, Status::ReadFault) => text.is_empty(),
        (Kind::Write, Status::WriteFault) => is_front(whole, text, fault.call),
        (Kind::Link, Status::LinkFault) => text.is_empty(),
        _ => false,
    }
}

// Whether each call of this kind before one ends the run where it fails, of which the whole text is
// this one.
fn fails_at_each<H: AllocGlobal + Wait + Copy + Drop>(
    rt: H,
    row: &str,
    bytes: &[u8],
    last: Fault,
    whole: &str,
) -> io::Result<bool> {
    for call in 0..last.call {
        let fault = Fault {
            kind: last.kind,
            call,
        };
        let ran = run_row(rt, row, bytes, Some(fault))?;
        if !is_met(&ran, fault, whole) {
            return Ok(false);
        }
    }
    Ok(true)
}

/// Whether the run of a row comes out as the row tells, and each of its calls that fails in turn
/// ends it.
pub fn is_as_told<H: Files + AllocGlobal + Wait + Copy + Drop>(
    rt: H,
    row: &str,
) -> io::Result<bool> {
    let source = source(&rt, row)?;
    let bytes = source.as_slice();
    let Some(last) = fault_of(row, "each") else {
        let ran = run_row(rt, row, bytes, fault_of(row, "fails"))?;
        return is_wanted(&rt, row, &ran);
    };
    let ran = run_row(rt, row, bytes, Some(last))?;
    let is_firm = fails_at_each(rt, row, bytes, last, ran.text.as_str())?;
    Ok(is_firm && is_wanted(&rt, row, &ran)?)
}
