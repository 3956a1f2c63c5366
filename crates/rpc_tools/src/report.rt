//! An audit: a report is read and judged, and a line written.
ghost use Rattle.std.specs.Prelude.{◌≡◌, ◌≢◌, ◌≤◌, ℕ, List, MatchResult, Some, length};
ghost use Rattle.count_line.specs.declared.audit.AuditLine.{AuditLine};
ghost use Rattle.memory_count.specs.Faults.{HasRisenBy, IsQuiet};
ghost use Rattle.rpc_outside.specs.Reading.{Unread};
ghost use Rattle.rpc_tools.specs.Audits.{Answers, Audits, Judges, lacks_judged, line_of, Says};
ghost use Rattle.rpc_tools.specs.Audits.{status_of, Writes};
ghost use Rattle.rpc_tools.specs.declared.report.TheConstants.{MOST_REPORT};
ghost use Rattle.rpc_tools.specs.Outcomes.{Gives, lacks_read};
ghost use Rattle.run_status.specs.Words.{lacks};

use crate::reading::{Input, read_all};
use count_line::{AuditLine, write_audit};
use history_audit::{Verdict, audit};
use memory_count::Memory;
use rpc_outside::{Sink, Source};
use run_status::Status;

/// The most bytes of a report that is audited.
const MOST_REPORT: usize = 67_108_864;

// How a run ends that says this.
fn status_of(line: AuditLine) -> Status
    ensures { result ≡ status_of line }
{
    match line {
        AuditLine::Lawful { .. } => Status::Done,
        AuditLine::Unlawful { line } => Status::NotLawful { line },
        AuditLine::TooLong => Status::TooLong,
    }
}

// Writes a line.
fn say<K: Sink>(sink: &mut K, line: AuditLine) -> Status
    ensures { Writes result line (K.page sink.old) (K.page sink.new) }
{
    match write_audit(sink, &line) {
        Ok(()) => status_of(line),
        Err(_) => Status::WriteFault,
    }
}

// The line of a verdict.
fn line_of(verdict: Verdict) -> AuditLine
    ensures { result ≡ line_of verdict }
{
    match verdict {
        Verdict::Lawful { facts } => AuditLine::Lawful { facts },
        Verdict::Unlawful { line } => AuditLine::Unlawful { line },
    }
}

// What is to be said of bytes that aren't too many.
fn judge_bytes(memory: &mut Memory, bytes: &[u8]) -> Result<AuditLine, Status>
    ensures says { MatchResult result
        (λ line. length bytes.now ≤ MOST_REPORT → Says bytes.now line)
        (λ status. status ≡ Status.NoMemory) }
    ensures cause { HasRisenBy (lacks_judged result) memory.old memory.new }
{
    match audit(memory, bytes) {
        Ok(verdict) => Ok(line_of(verdict)),
        Err(_) => Err(Status::NoMemory),
    }
}

// What is to be said of what the source gave.
fn judge(memory: &mut Memory, input: Input) -> Result<AuditLine, Status>
    ensures judges { (before after : Unread) → Gives MOST_REPORT input before after
        → Judges result before after }
    ensures cause { (before : ℕ) → HasRisenBy (lacks_read input) before memory.old
        → HasRisenBy (lacks_judged result) before memory.new }
{
    match input {
        Input::Whole(octets) => judge_bytes(memory, octets.bytes()),
        Input::TooLong => Ok(AuditLine::TooLong),
        Input::Fault => Err(Status::ReadFault),
        Input::Memory => Err(Status::NoMemory),
    }
}

/// Reads the source to its end, or until more than 67,108,864 bytes came, and writes whether they
/// are the report of a lawful history, at which line they fail, or that they are too many. It waits
/// for nothing. `NoMemory` comes only where memory was refused.
pub fn audit_report<S: Source, K: Sink>(memory: &mut Memory, source: &mut S, sink: &mut K) -> Status
    ensures audits { Audits result (S.input source.old) (S.input source.new) (K.page sink.old)
        (K.page sink.new) }
    ensures answers { (bytes : List ℕ) (line : AuditLine)
        → (S.input source.old).left ≡ Some bytes → Says bytes line
        → IsQuiet (S.input source.old).faults (S.input source.new).faults
        → IsQuiet (K.page sink.old).faults (K.page sink.new).faults
        → result ≢ Status.NoMemory
        → Answers line result (S.input source.new) (K.page sink.old) (K.page sink.new) }
    ensures cause { HasRisenBy (lacks result) memory.old memory.new }
{
    let input = read_all(memory, source, MOST_REPORT);
    match judge(memory, input) {
        Ok(line) => say(sink, line),
        Err(status) => status,
    }
}
