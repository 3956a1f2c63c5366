//! Rows of reports: those of the folder are read and drawn, and their pictures compared with what
//! stands beside them; others have a line that no report has, or lack one.
use crate::{no_memory, picture_of};
use memory_count::Memory;
use report_reader::{Reading, read_report};
use std::rt::Files;
use std::{fs, io};

/// The reports of the folder, each with its picture.
const PICTURES: [&str; 6] = [
    "one_echo",
    "lost_reply",
    "late_copy",
    "connect_and_disconnect",
    "late_copy_of_an_older_life",
    "older_session_ended",
];

/// Reports of so many facts.
const WHOLE: [(&str, usize); 2] = [
    ("erpc-report 1\nend 0\n", 0),
    ("erpc-report 1\n0 made ring 32\n0 polled 7\nend 2\n", 2),
];

/// Texts that are no report, and their first line that none has, or that is lacking.
const BAD: [(&str, u64); 10] = [
    ("", 1),
    ("erpc-report 1", 1),
    ("erpc-report 2\nend 0\n", 1),
    ("erpc-report 1\nend 0", 2),
    ("erpc-report 1\nend 1\n", 2),
    ("erpc-report 1\n0 polled 07\nend 1\n", 2),
    ("erpc-report 1\n256 heard\nend 1\n", 2),
    ("erpc-report 1\n0 heard\n0 heard twice\nend 2\n", 3),
    ("erpc-report 1\n0 heard\nend 2\n", 3),
    ("erpc-report 1\n0 heard\nend 1\nend 1\n", 4),
];

// Whether the picture of a report of the folder is the one beside it.
fn is_drawn<H: Files + AllocGlobal + Copy + Drop>(rt: H, name: &str) -> io::Result<bool> {
    let alloc = rt.alloc();
    let report = fs::read(&rt, format!(in alloc; "{name}.report")?.as_str())?;
    let wanted = fs::read_to_string(&rt, format!(in alloc; "{name}.svg")?.as_str())?;
    let memory = &mut Memory::new(alloc);
    match read_report(memory, report.as_slice()).map_err(no_memory)? {
        Reading::Whole(facts) => {
            let picture = picture_of(memory, facts.as_slice())?;
            Ok(picture.as_str() == wanted.as_str())
        }
        Reading::Bad(_) => Ok(false),
    }
}

// Whether a text is a report of so many facts.
fn is_whole(memory: &mut Memory, text: &str, count: usize) -> io::Result<bool> {
    match read_report(memory, text.as_bytes()).map_err(no_memory)? {
        Reading::Whole(facts) => Ok(facts.len() == count),
        Reading::Bad(_) => Ok(false),
    }
}

// Whether this line of a text is the first that no report has.
fn is_bad(memory: &mut Memory, text: &str, line: u64) -> io::Result<bool> {
    match read_report(memory, text.as_bytes()).map_err(no_memory)? {
        Reading::Whole(_) => Ok(false),
        Reading::Bad(bad) => Ok(bad == line),
    }
}

fn tell(rt: &impl Print, name: &str, outcome: io::Result<bool>) -> io::Result<()> {
    match outcome {
        Ok(true) => println!(rt; "{name}: as expected"),
        Ok(false) => println!(rt; "{name}: otherwise"),
        Err(_) => println!(rt; "{name}: could not be run"),
    }
}

/// Tells a line of each row.
pub fn tell_all<H: Files + AllocGlobal + Print + Copy + Drop>(rt: H) -> io::Result<()> {
    let memory = &mut Memory::new(rt.alloc());
    for name in PICTURES {
        tell(&rt, name, is_drawn(rt, name))?;
    }
    for (text, count) in WHOLE {
        tell(&rt, "a whole report", is_whole(memory, text, count))?;
    }
    for (text, line) in BAD {
        tell(&rt, "a bad line", is_bad(memory, text, line))?;
    }
    Ok(())
}
