//! The line of an audit.
ghost use Rattle.count_line.specs.Line.{audit_text, lone_text};
ghost use Rattle.rpc_outside.specs.Writing.{Prints};

use crate::line::{Count, write_counts};
use crate::word::Word;
use rpc_outside::{Failed, Sink, write_all};

/// What an audit of a report came to.
#[derive(Clone, Copy, Debug, PartialEq, Eq)]
pub enum AuditLine {
    /// It is lawful, and has so many facts.
    Lawful { facts: u64 },
    /// It isn't: it fails at this line, counted from 1.
    Unlawful { line: u64 },
    /// It has more bytes than are audited.
    TooLong,
}

// Writes a line of one count.
fn write_lone<K: Sink>(sink: &mut K, word: Word, number: u64) -> Result<(), Failed>
    ensures { Prints (K.page sink.old) (K.page sink.new) result (lone_text word number) }
{
    write_counts(sink, &[Count::of(word, number)])
}

/// Writes the line of an audit: `lawful FACTS`, `unlawful LINE` or `toolong`. It takes no memory.
/// `Failed` comes only where the sink counts one more fault; a front of the line was then written.
pub fn write_audit<K: Sink>(sink: &mut K, line: &AuditLine) -> Result<(), Failed>
    ensures { Prints (K.page sink.old) (K.page sink.new) result (audit_text line.now) }
{
    match line {
        AuditLine::Lawful { facts } => write_lone(sink, Word::Lawful, *facts),
        AuditLine::Unlawful { line } => write_lone(sink, Word::Unlawful, *line),
        AuditLine::TooLong => write_all(sink, b"toolong\n"),
    }
}
