//! The audit of a report. It is read once, a line at a time, and no fact is kept but by the
//! auditor.
ghost use Rattle.std.specs.Prelude.{ℕ, ◌≡◌, ◌+◌, ◌<◌, ◌^◌, ◌↔◌, List, IfOk, length};
ghost use Rattle.history_audit.specs.Auditing.{IsFault, IsNoReport, IsVerdict};
ghost use Rattle.history_audit.specs.declared.fault.Fault.{Fault};
ghost use Rattle.history_audit.specs.declared.verdict.Verdict.{Verdict};
ghost use Rattle.history_audit.specs.Reading.{IsAudited, IsAuditedBelow, IsEnd};
ghost use Rattle.memory_count.specs.Faults.{HasCause};
ghost use Rattle.rpc_base.specs.declared.fact.Fact.{Fact};

use crate::auditor::Auditor;
use crate::fault::Fault;
use crate::verdict::Verdict;
use memory_count::{Memory, NoMemory};
use report_reader::{LineReader, below_head, is_end, next_line};

/// What is known of bytes once they are read.
#[derive(Drop)]
enum Audited {
    /// They are the report of the facts that the auditor has read.
    Report(Auditor),
    /// They are no report: this line, counted from 1, isn't spelled as one of a report, or isn't
    /// there; the lines before it are.
    Bad(u64),
}

// What is known where a line of no fact comes after those that an auditor has read, and then this
// text.
fn ended(auditor: Auditor, line: &[u8], after: &[u8]) -> Audited
    requires few { auditor.facts < 2 ^ 63 }
    ensures { (facts : List Fact) → auditor.facts ≡ length facts
        → IsEnd line.now after.now facts auditor result }
{
    let count = auditor.facts();
    if !is_end(line, count) {
        return Audited::Bad(count + 2);
    }
    if !after.is_empty() {
        return Audited::Bad(count + 3);
    }
    Audited::Report(auditor)
}

// Reads the lines below the first one.
fn audited_below(memory: &mut Memory, text: &[u8]) -> Result<Audited, NoMemory>
    requires { length text.now < 2 ^ 63 }
    ensures audited { IfOk result (IsAuditedBelow text.now) }
    ensures cause { HasCause memory.old memory.new result }
{
    let mut text = text;
    let mut auditor = Auditor::new(memory)?;
    let mut reader = LineReader::new(memory.alloc());
    while let Some((line, after)) = next_line(text) {
        let Some(fact) = reader.read_fact(memory, line)? else {
            return Ok(ended(auditor, line, after));
        };
        auditor.note(memory, &fact)?;
        text = after;
    }
    Ok(Audited::Bad(auditor.facts() + 2))
}

// Reads bytes.
fn judged(memory: &mut Memory, bytes: &[u8]) -> Result<Audited, NoMemory>
    requires { length bytes.now < 2 ^ 63 }
    ensures audited { IfOk result (IsAudited bytes.now) }
    ensures cause { HasCause memory.old memory.new result }
{
    let Some(text) = below_head(bytes) else {
        return Ok(Audited::Bad(1));
    };
    audited_below(memory, text)
}

/// Says whether bytes are the report of a lawful history, and if not at which line they fail.
/// `NoMemory` comes only where memory for what is kept of the facts, or for a line, was refused.
pub fn audit(memory: &mut Memory, bytes: &[u8]) -> Result<Verdict, NoMemory>
    ensures verdict { IfOk result (IsVerdict bytes.now) }
    ensures only { (v : Verdict) → IsVerdict bytes.now v → IfOk result (λ told. told ≡ v) }
    ensures cause { HasCause memory.old memory.new result }
{
    match judged(memory, bytes)? {
        Audited::Report(auditor) => Ok(auditor.verdict()),
        Audited::Bad(line) => Ok(Verdict::Unlawful { line }),
    }
}

/// Why bytes fail to be the report of a lawful history, for a user to read: `Unspelled` exactly
/// where they are the report of no history; `Unlawful` where some front, at whose end no node is in
/// the midst of a poll, isn't lawful, with a claim that some first facts of the shortest of these
/// break; and `Unended` where each such front is lawful, which it says of the report of a lawful
/// history too.
/// `NoMemory` comes only where memory for what is kept of the facts, or for a line, was refused.
pub fn fault_of(memory: &mut Memory, bytes: &[u8]) -> Result<Fault, NoMemory>
    ensures fault { IfOk result (IsFault bytes.now) }
    ensures unspelled { IfOk result (λ fault. (fault ≡ Fault.Unspelled) ↔ IsNoReport bytes.now) }
    ensures cause { HasCause memory.old memory.new result }
{
    match judged(memory, bytes)? {
        Audited::Report(auditor) => Ok(auditor.fault()),
        Audited::Bad(_) => Ok(Fault::Unspelled),
    }
}
