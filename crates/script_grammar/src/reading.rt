//! The reader of scripts, line by line.
ghost use Rattle.std.specs.Prelude.{◌≡◌, ◌+◌, ◌≤◌, ℕ, List, [], ◌∷◌, All, Ok, Err, IfOk, IfErr};
ghost use Rattle.std.specs.Prelude.{OnOk, false};
ghost use Rattle.memory_count.specs.Faults.{HasRisenBy};
ghost use Rattle.script_grammar.specs.Conditions.{IsInRange};
ghost use Rattle.script_grammar.specs.Lines.{lines_of};
ghost use Rattle.script_grammar.specs.Reader.{said_of};
ghost use Rattle.script_grammar.specs.Reading.{IsReading, lacks_read};
ghost use Rattle.script_grammar.specs.Script.{is_passed_over, line_in, lines_in, script_of};
ghost use Rattle.script_grammar.specs.Told.{IsTold, lacks};

use crate::bad::{BadScript, BadWhy, ReadError};
use crate::before::{Before, FEWEST_NODES};
use crate::command::command;
use crate::line::{Command, Line};
use crate::refusal::Refusal;
use crate::script::Script;
use crate::text::{is_word, next_line};
use memory_count::Memory;

/// No script has more bytes.
pub const MOST_BYTES: usize = 16_777_216;
/// No script has more lines.
pub const MOST_LINES: u32 = 100_000;
/// The line after the head.
const FIRST_COMMAND: u32 = 2;

fn bad_at(line: u32, why: BadWhy) -> ReadError
    ensures { result ≡ ReadError.Bad (record { line = line; why = why }) }
{
    ReadError::Bad(BadScript { line, why })
}

/// Tells whether a line is empty or a comment.
#[tactic(auto, unfolding(crate::specs::Script::is_passed_over))]
fn is_passed_over(line: &[u8]) -> bool
    ensures { result ≡ is_passed_over line.now }
{
    line.is_empty() || line.starts_with(b"#")
}

/// The command of a line, and what then stands before the next one.
#[tactic(auto, unfolding(crate::specs::Script::line_in))]
fn read_line(memory: &mut Memory, before: Before, line: &[u8]) -> Result<(Command, Before), Refusal>
    ensures value { IsTold result (line_in before line.now) }
    ensures range { IfOk result (λ p. IsInRange p.0) }
    ensures cause { HasRisenBy (lacks result) memory.old memory.new }
{
    let command = command(memory, line)?;
    match before.admit(&command) {
        Ok(after) => Ok((command, after)),
        Err(why) => Err(Refusal::Why(why)),
    }
}

/// The reader between two lines: the number of the next line, and what came before it.
#[derive(Drop)]
pub struct Reader {
    pub number: u32,
    pub before: Before,
    pub lines: Vec<Line>,
}

impl Reader {
    /// Reads the next line.
    fn take(&mut self, memory: &mut Memory, line: &[u8]) -> Result<(), ReadError>
        requires number { self.old.number ≤ 100001 }
        requires ranges { All (λ line. IsInRange line.command) self.old.lines.items }
        ensures taken { IfOk result (λ _. (rest : List (List ℕ))
            → said_of self.old (line.now ∷ rest) ≡ said_of self.new rest) }
        ensures number { OnOk result (self.new.number ≤ 100001) }
        ensures ranges { OnOk result (All (λ line. IsInRange line.command) self.new.lines.items) }
        ensures bad { IfErr result (λ error. (rest : List (List ℕ))
            → IsReading (Err error) (said_of self.old (line.now ∷ rest))) }
        ensures cause { HasRisenBy (lacks_read result) memory.old memory.new }
    {
        if self.number > MOST_LINES {
            return Err(bad_at(self.number, BadWhy::Lines));
        }
        if is_passed_over(line) {
            self.number += 1;
            return Ok(());
        }
        match read_line(memory, self.before, line) {
            Ok((command, after)) => {
                let number = self.number;
                memory.push(&mut self.lines, Line { number, command })?;
                self.before = after;
                self.number += 1;
                Ok(())
            }
            Err(Refusal::Why(why)) => Err(bad_at(self.number, why)),
            Err(Refusal::NoMemory) => Err(ReadError::NoMemory),
        }
    }

    /// The lines, where none is left.
    fn finish(self) -> Result<Vec<Line>, ReadError>
        ensures ok { IfOk result (λ lines. (said_of self [] ≡ Ok lines.items)
            × (lines.items ≡ self.lines.items)) }
        ensures bad { IfErr result (λ error. IsReading (Err error) (said_of self [])) }
        ensures memory { lacks_read result ≡ 0 }
    {
        if self.before.nodes < FEWEST_NODES {
            return Err(bad_at(self.number, BadWhy::Nodes));
        }
        Ok(self.lines)
    }
}

/// Reads what stands below the head.
fn read_lines(memory: &mut Memory, text: &[u8]) -> Result<Vec<Line>, ReadError>
    ensures ok { IfOk result (λ lines. lines_in 2 (record { nodes = 0; begun = false })
        (lines_of text.now) ≡ Ok lines.items) }
    ensures ranges { IfOk result (λ lines. All (λ line. IsInRange line.command) lines.items) }
    ensures bad { IfErr result (λ error. IsReading (Err error)
        (lines_in 2 (record { nodes = 0; begun = false }) (lines_of text.now))) }
    ensures cause { HasRisenBy (lacks_read result) memory.old memory.new }
{
    let mut reader = Reader {
        number: FIRST_COMMAND,
        before: Before::START,
        lines: Vec::new(memory.alloc()),
    };
    let mut text = text;
    while let Some((line, rest)) = next_line(text) {
        reader.take(memory, line)?;
        text = rest;
    }
    reader.finish()
}

/// Reads the commands of a script, with their lines.
#[tactic(auto, unfolding(crate::specs::Script::script_of, crate::specs::Script::text_in))]
fn read_text(memory: &mut Memory, bytes: &[u8]) -> Result<Vec<Line>, ReadError>
    ensures ok { IfOk result (λ lines. script_of bytes.now ≡ Ok lines.items) }
    ensures ranges { IfOk result (λ lines. All (λ line. IsInRange line.command) lines.items) }
    ensures bad { IfErr result (λ error. IsReading (Err error) (script_of bytes.now)) }
    ensures cause { HasRisenBy (lacks_read result) memory.old memory.new }
{
    if bytes.len() > MOST_BYTES {
        return Err(bad_at(0, BadWhy::TooLong));
    }
    match next_line(bytes) {
        Some((head, rest)) if is_word(head, b"erpc-sim 1") => read_lines(memory, rest),
        _ => Err(bad_at(1, BadWhy::First)),
    }
}

/// Reads a script. `Bad` names its first bad line, exactly where the grammar refuses it; `NoMemory`
/// comes only where memory for its commands was refused.
pub fn read(memory: &mut Memory, bytes: &[u8]) -> Result<Script, ReadError>
    ensures reading { IsReading result (script_of bytes.now) }
    ensures cause { HasRisenBy (lacks_read result) memory.old memory.new }
{
    let lines = read_text(memory, bytes)?;
    Ok(Script::of(lines))
}
