//! The program's top call over forms in memory, row by row, and a line for each row.
//!
//! Each script of a file is run, and its report compared with what stands beside it: a whole
//! report, lines that come in this order, each as often as it stands there, or counts of lines.
//! Drills write the line that is expected, twice the same. Each of these reports is audited, and so
//! are reports with one change each, of which a file tells what the audit writes. The rows of two
//! further files are lines of words over a source, a sink and a link, of which calls may fail: what
//! was written and sent, and how it ended, is compared with what the row tells.
#![tactic(auto)]

mod audits;
mod cases;
mod changes;
mod outside;
mod reports;
mod rows;
mod runs;

use crate::reports::case_of;
use std::rt::Files;
use std::sync::Wait;
use std::{fs, io};

/// The file with the cases: a line for each, the name of the file that its report is compared with.
const CASES: &str = "cases.list";

/// The drills and the rows of faults, which are counted with the cases.
const OTHERS: usize = 4;

/// The file with changed reports: a line for each, but for its remarks, which begin with `#`.
const CHANGED: &str = "changed.audits";

/// What is told of a row that comes out as it has to.
const EXPECTED: &str = ": as expected";

// A line of a row: what is done, if that has to be said, with what, and how it came out.
fn tell(
    rt: &impl Print,
    done: &str,
    name: &str,
    good: &str,
    outcome: io::Result<bool>,
) -> io::Result<()> {
    match outcome {
        Ok(true) => println!(rt; "{done}{name}{good}"),
        Ok(false) => println!(rt; "{done}{name}: otherwise"),
        Err(_) => println!(rt; "{done}{name}: could not be run"),
    }
}

// Compares the report of each case with what is wanted.
fn compare_cases<H: Files + AllocGlobal + Print + Wait + Copy + Drop>(
    rt: H,
    list: &str,
) -> io::Result<()> {
    for row in list.lines() {
        let (name, wants) = case_of(row);
        tell(&rt, "", name, EXPECTED, cases::is_told(rt, name, wants))?;
    }
    Ok(())
}

// Runs a drill of so many calls.
fn run_drill<H: AllocGlobal + Print + Wait + Copy + Drop>(
    rt: H,
    words: &str,
    front: &str,
) -> io::Result<()> {
    tell(
        &rt,
        "",
        words,
        EXPECTED,
        cases::is_drilled(rt, words, front),
    )
}

// Audits the report of each case.
fn audit_cases<H: Files + AllocGlobal + Print + Wait + Copy + Drop>(
    rt: H,
    list: &str,
) -> io::Result<()> {
    for row in list.lines() {
        let (name, _) = case_of(row);
        tell(&rt, "audit of ", name, EXPECTED, cases::is_lawful(rt, name))?;
    }
    Ok(())
}

// Audits reports with one change each, no report, and one that is too long.
fn audit_changed<H: Files + AllocGlobal + Print + Wait + Copy + Drop>(rt: H) -> io::Result<()> {
    let rows = fs::read_to_string(&rt, CHANGED)?;
    for row in rows.as_str().lines() {
        if !row.is_empty() && !row.starts_with('#') {
            tell(&rt, "", row, EXPECTED, audits::is_judged(rt, row))?;
        }
    }
    let name = "no report, and one that is too long";
    tell(&rt, "", name, EXPECTED, audits::are_ends_judged(rt))
}

// Runs the rows of a file, each of which begins with a line `# NAME`.
fn run_rows<H: Files + AllocGlobal + Print + Wait + Copy + Drop>(
    rt: H,
    file: &str,
    good: &str,
) -> io::Result<()> {
    let text = fs::read_to_string(&rt, file)?;
    for row in text.as_str().split("# ").skip(1) {
        let (name, fields) = row.split_once('\n').unwrap_or((row, ""));
        tell(&rt, "", name, good, rows::is_as_told(rt, fields))?;
    }
    Ok(())
}

fn main(rt: HostRuntime) -> io::Result<()> {
    let list = fs::read_to_string(&rt, CASES)?;
    let list = list.as_str();
    compare_cases(rt, list)?;
    run_drill(
        rt,
        "drill 7 100",
        "drill seed 7 calls 100 ran 100 ok 100 facts ",
    )?;
    run_drill(
        rt,
        "drill 7 1000",
        "drill seed 7 calls 1000 ran 1000 ok 1000 facts ",
    )?;
    run_rows(rt, "faults.rows", EXPECTED)?;
    audit_cases(rt, list)?;
    println!(rt; "{} cases", list.lines().count().saturating_add(OTHERS))?;
    audit_changed(rt)?;
    run_rows(rt, "turns.rows", " ok")
}
