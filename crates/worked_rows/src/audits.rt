//! Audits of texts, and whether they say what is wanted.
use crate::changes::{change_of, changed, last_word};
use crate::runs::run_line;
use rpc_tools::Status;
use std::rt::Files;
use std::sync::Wait;
use std::{fs, io};

/// More bytes than a report may have that is audited.
const TOO_MANY: usize = 67_108_865;

// Whether a run ended as a line says that an audit writes.
fn is_status(status: Status, line: &str) -> bool {
    match status {
        Status::Done => line.starts_with("lawful "),
        Status::NotLawful { .. } => line.starts_with("unlawful "),
        Status::TooLong => line == "toolong",
        _ => false,
    }
}

// Whether what was written is this line.
fn is_line(written: &str, line: &str) -> bool {
    match written.strip_suffix("\n") {
        Some(front) => front == line,
        None => false,
    }
}

/// Whether an audit of these bytes writes this line, and ends as it says.
pub fn says<H: AllocGlobal + Wait + Copy + Drop>(
    rt: H,
    bytes: &[u8],
    line: &str,
) -> io::Result<bool> {
    let ran = run_line(rt, "audit", bytes, None, 0)?;
    Ok(is_status(ran.status, line) && is_line(ran.text.as_str(), line))
}

// What a line of changes has: the name of a report, its change, and the line that is wanted.
fn parts_of(row: &str) -> Option<(&str, &str, &str)> {
    let (left, wanted) = row.split_once(": ")?;
    let (name, change) = left.split_once(" ")?;
    Some((name, change, wanted))
}

// The report of this name.
fn report_of<H: Files + AllocGlobal>(rt: &H, name: &str) -> io::Result<String> {
    let path = format!(in rt.alloc(); "{name}.report")?;
    fs::read_to_string(rt, path.as_str())
}

// The report of this name with a change.
fn changed_report<H: Files + AllocGlobal>(rt: &H, name: &str, words: &str) -> io::Result<String> {
    let Some(change) = change_of(words) else {
        return Err(io::Error::from(io::ErrorKind::InvalidInput));
    };
    let report = report_of(rt, name)?;
    changed(rt.alloc(), report.as_str(), change, last_word(words))
}

/// Whether a report that is changed as a line tells is judged as it tells.
pub fn is_judged<H: Files + AllocGlobal + Wait + Copy + Drop>(
    rt: H,
    row: &str,
) -> io::Result<bool> {
    let Some((name, change, wanted)) = parts_of(row) else {
        return Ok(false);
    };
    let text = changed_report(&rt, name, change)?;
    says(rt, text.as_bytes(), wanted)
}

/// Whether an empty source fails at line 1, and one that is too long is told so.
pub fn are_ends_judged<H: AllocGlobal + Wait + Copy + Drop>(rt: H) -> io::Result<bool> {
    let long = Vec::from_elem(rt.alloc(), b'0', TOO_MANY)?;
    Ok(says(rt, b"", "unlawful 1")? && says(rt, long.as_slice(), "toolong")?)
}
