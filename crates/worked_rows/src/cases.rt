//! Scripts of the folder, and drills.
use crate::audits::says;
use crate::reports::{Wants, facts_in};
use crate::runs::written_by;
use std::rt::Files;
use std::sync::Wait;
use std::{fs, io};

// The report of a case.
fn run_case<H: Files + AllocGlobal + Wait + Copy + Drop>(rt: H, name: &str) -> io::Result<String> {
    let path = format!(in rt.alloc(); "{name}.script")?;
    let script = fs::read(&rt, path.as_str())?;
    written_by(rt, "sim", script.as_slice())
}

fn wanted<H: Files + AllocGlobal>(rt: &H, name: &str, wants: Wants) -> io::Result<String> {
    let path = format!(in rt.alloc(); "{name}.{}", wants.ending())?;
    fs::read_to_string(rt, path.as_str())
}

/// Whether the report of a case is as wanted.
pub fn is_told<H: Files + AllocGlobal + Wait + Copy + Drop>(
    rt: H,
    name: &str,
    wants: Wants,
) -> io::Result<bool> {
    let wanted = wanted(&rt, name, wants)?;
    let report = run_case(rt, name)?;
    Ok(wants.are_in(report.as_str(), wanted.as_str()))
}

/// Whether an audit of the report of a case says that it is lawful, with the number of its facts.
pub fn is_lawful<H: Files + AllocGlobal + Wait + Copy + Drop>(
    rt: H,
    name: &str,
) -> io::Result<bool> {
    let report = run_case(rt, name)?;
    let line = format!(in rt.alloc(); "lawful {}", facts_in(report.as_str()))?;
    says(rt, report.as_bytes(), line.as_str())
}

/// Whether a drill writes one line that begins so, and the same one again.
pub fn is_drilled<H: AllocGlobal + Wait + Copy + Drop>(
    rt: H,
    words: &str,
    front: &str,
) -> io::Result<bool> {
    let first = written_by(rt, words, &[])?;
    let second = written_by(rt, words, &[])?;
    let line = first.as_str();
    let is_one = line.starts_with(front) && line.lines().count() == 1;
    Ok(is_one && line == second.as_str())
}
