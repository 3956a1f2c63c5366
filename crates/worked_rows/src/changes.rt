//! Changes of reports.
use std::alloc::Global;
use std::io;

/// A change of a report. Lines and words are counted from 1.
#[derive(Clone, Copy)]
pub enum Change {
    /// None.
    Whole,
    /// A line is left out.
    Without(usize),
    /// A line stands twice.
    Double(usize),
    /// A line and the next one change places.
    Swap(usize),
    /// A word of a line is another one: which line, and which word.
    Word(usize, usize),
}

// The number that stands at a place among words, 0 where none does.
fn number_at(words: &str, place: usize) -> usize {
    let word = words.split(' ').nth(place).unwrap_or("");
    word.parse::<usize>().unwrap_or(0)
}

/// The change that these words tell: `whole`, `without LINE`, `double LINE`, `swap LINE` or
/// `word LINE PLACE WORD`.
pub fn change_of(words: &str) -> Option<Change> {
    let line = number_at(words, 1);
    match words.split(' ').next().unwrap_or("") {
        "whole" => Some(Change::Whole),
        "without" => Some(Change::Without(line)),
        "double" => Some(Change::Double(line)),
        "swap" => Some(Change::Swap(line)),
        "word" => Some(Change::Word(line, number_at(words, 2))),
        _ => None,
    }
}

/// The last of some words.
pub fn last_word(words: &str) -> &str {
    words.split(' ').last().unwrap_or("")
}

// Puts a line and its line feed behind a text.
fn put(text: &mut String, line: &str) -> io::Result<()> {
    text.push_str(line)?;
    text.push_str("\n")?;
    Ok(())
}

// Puts a line, of which one word is another one.
fn put_with_word(text: &mut String, line: &str, place: usize, other: &str) -> io::Result<()> {
    for (before, word) in line.split(' ').enumerate() {
        if before > 0 {
            text.push_str(" ")?;
        }
        if before.saturating_add(1) == place {
            text.push_str(other)?;
        } else {
            text.push_str(word)?;
        }
    }
    text.push_str("\n")?;
    Ok(())
}

// The line of this number, empty where there is none.
fn line_at(report: &str, number: usize) -> &str {
    report.lines().nth(number.saturating_sub(1)).unwrap_or("")
}

// Puts line `number` of a report as the change has it; `other` is the other word.
fn put_line(
    text: &mut String,
    report: &str,
    change: Change,
    other: &str,
    number: usize,
) -> io::Result<()> {
    let line = line_at(report, number);
    match change {
        Change::Without(at) if at == number => Ok(()),
        Change::Double(at) if at == number => {
            put(text, line)?;
            put(text, line)
        }
        Change::Swap(at) if at == number => put(text, line_at(report, number.saturating_add(1))),
        Change::Swap(at) if at.saturating_add(1) == number => put(text, line_at(report, at)),
        Change::Word(at, place) if at == number => put_with_word(text, line, place, other),
        _ => put(text, line),
    }
}

// How many facts a report counts, once it is changed so; None where its last line stays.
fn facts_after(report: &str, change: Change) -> Option<usize> {
    let facts = report.lines().count().saturating_sub(2);
    match change {
        Change::Without(_) => Some(facts.saturating_sub(1)),
        Change::Double(_) => Some(facts.saturating_add(1)),
        Change::Whole | Change::Swap(_) | Change::Word(..) => None,
    }
}

/// A report with a change, `other` being the other word: where a line was left out or doubled, the
/// last line counts the facts that are there.
pub fn changed(alloc: Global, report: &str, change: Change, other: &str) -> io::Result<String> {
    let mut text = String::new(alloc);
    let lines = report.lines().count();
    for number in 1..lines {
        put_line(&mut text, report, change, other, number)?;
    }
    match facts_after(report, change) {
        Some(facts) => {
            let end = format!(in alloc; "end {facts}")?;
            put(&mut text, end.as_str())?;
        }
        None => put_line(&mut text, report, change, other, lines)?,
    }
    Ok(text)
}
