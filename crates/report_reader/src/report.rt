//! The reader of reports, line by line.
ghost use Rattle.std.specs.Prelude.{◌≡◌, ◌<◌, ◌==◌, ◌∷◌, [], length, Some};
ghost use Rattle.std.specs.Prelude.{true, false, ◌^◌, IfOk, IfSome, IfNone};
ghost use Rattle.std.specs.List.{position};
ghost use Rattle.memory_count.specs.Faults.{HasCause};
ghost use Rattle.report_reader.specs.declared.report.Reading.TheVariants.{Bad};
ghost use Rattle.report_reader.specs.Lines.{end_line, head_line, parts_of};
ghost use Rattle.report_reader.specs.Reading.{Ends, IsReading, IsReadingBelow, ReadsNext};

use crate::line::LineReader;
use crate::words::is_word;
use itoa::Buffer;
use memory_count::{Memory, NoMemory};
use rpc_base::{Fact, Listed};

/// Ends a line.
const LINE_FEED: u8 = b'\n';

/// The first line of a report.
const HEAD: &[u8] = b"erpc-report 1";

/// What the last line of a report begins with; the number of facts stands behind it.
const END: &[u8] = b"end ";

/// What was read of a report.
#[derive(Debug, Drop)]
pub enum Reading {
    /// It is the report of these facts.
    Whole(Listed<Fact>),
    /// It is no report: this line, counted from 1, isn't spelled as one of a report, or isn't
    /// there; the lines before it are.
    Bad(u64),
}

// Where the first line feed stands.
fn first_feed(text: &[u8]) -> Option<usize>
    ensures position { result ≡ position (λ b. b == 10) text.now }
    ensures within { IfSome result (λ end. end < length text.now) }
{
    text.iter().position(|b| *b == LINE_FEED)
}

/// The first line of a text, and what stands after its line feed; `None` exactly where there is no
/// line feed.
pub fn next_line(text: &[u8]) -> Option<(&[u8], &[u8])>
    ensures none { IfNone result (parts_of text.now ≡ text.now ∷ []) }
    ensures line { IfSome result (λ p. parts_of text.now ≡ p.0.now ∷ parts_of p.1.now) }
    ensures shorter { IfSome result (λ p. length p.1.now < length text.now) }
{
    match first_feed(text) {
        None => None,
        Some(end) => Some((&text[..end], &text[end + 1..])),
    }
}

/// Whether a line is the last one of a report of so many facts.
pub fn is_end(line: &[u8], facts: u64) -> bool
    ensures yes { result ≡ true → line.now ≡ end_line facts }
    ensures no { result ≡ false → line.now ≡ end_line facts → ⊥ }
{
    if !line.starts_with(END) {
        return false;
    }
    let mut digits = Buffer::new();
    let count = digits.format(facts).as_bytes();
    is_word(&line[END.len()..], count)
}

/// Reads a line below the first one as a fact. `None` comes exactly where it is that of no fact,
/// and `NoMemory` only where memory for the bytes of the line was refused.
pub fn read_fact(memory: &mut Memory, line: &[u8]) -> Result<Option<Fact>, NoMemory>
    ensures reads { IfOk result (ReadsNext line.now) }
    ensures cause { HasCause memory.old memory.new result }
{
    LineReader::new(memory.alloc()).read_fact(memory, line)
}

// What was read where a line of no fact comes after these facts, and then this text.
fn ended(facts: Vec<Fact>, line: &[u8], after: &[u8]) -> Reading
    requires { length facts.items < 2 ^ 63 }
    ensures { Ends line.now after.now facts.items result }
{
    let count = facts.len() as u64;
    if !is_end(line, count) {
        return Reading::Bad(count + 2);
    }
    if !after.is_empty() {
        return Reading::Bad(count + 3);
    }
    Reading::Whole(Listed::from(facts))
}

// Reads the lines below the first one.
fn read_facts(memory: &mut Memory, text: &[u8]) -> Result<Reading, NoMemory>
    requires { length text.now < 2 ^ 63 }
    ensures reads { IfOk result (IsReadingBelow text.now) }
    ensures cause { HasCause memory.old memory.new result }
{
    let mut text = text;
    let mut facts = Vec::new(memory.alloc());
    let mut reader = LineReader::new(memory.alloc());
    while let Some((line, after)) = next_line(text) {
        let Some(fact) = reader.read_fact(memory, line)? else {
            return Ok(ended(facts, line, after));
        };
        memory.push(&mut facts, fact)?;
        text = after;
    }
    Ok(Reading::Bad(facts.len() as u64 + 2))
}

/// What stands below the first line of a report. `None` comes exactly where that line isn't
/// spelled, or isn't there.
pub fn below_head(bytes: &[u8]) -> Option<&[u8]>
    requires { length bytes.now < 2 ^ 63 }
    ensures some { IfSome result (λ text. parts_of bytes.now ≡ head_line ∷ parts_of text.now) }
    ensures shorter { IfSome result (λ text. length text.now < length bytes.now) }
    ensures none { IfNone result (IsReading bytes.now (Bad 1)) }
{
    let Some((head, rest)) = next_line(bytes) else {
        return None;
    };
    if !is_word(head, HEAD) {
        return None;
    }
    Some(rest)
}

/// Reads a report: the facts that it is the report of, or the first line that isn't spelled as one
/// of a report. `NoMemory` comes only where memory for the facts or a line of them was refused.
pub fn read_report(memory: &mut Memory, bytes: &[u8]) -> Result<Reading, NoMemory>
    requires { length bytes.now < 2 ^ 63 }
    ensures reads { IfOk result (IsReading bytes.now) }
    ensures cause { HasCause memory.old memory.new result }
{
    let Some(text) = below_head(bytes) else {
        return Ok(Reading::Bad(1));
    };
    read_facts(memory, text)
}
