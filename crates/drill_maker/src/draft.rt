//! A script that is being made, line by line.
ghost use Rattle.std.specs.Prelude.{◌≡◌, ◌+◌, ◌≤◌, [], ◌∷◌, ◌++◌, All, length, IfOk, OnOk, OnErr};
ghost use Rattle.drill_maker.specs.Draft.{IsDrilled, KeepsSessions};
ghost use Rattle.drill_maker.specs.Drill.{nodes, numbered};
ghost use Rattle.memory_count.specs.Faults.{HasCause};

use memory_count::{Memory, NoMemory};
use script_grammar::{Command, Line, MOST_LINES, Script};
use std::alloc::AllocError;
use std::marker::Model;

/// The line of the first command.
const FIRST_LINE: u32 = 2;
/// The places of each node's ring.
const RING: u32 = 256;

/// A script that is being made: three nodes, and then commands among them, each on the line after
/// the one before. Contracts see the list of its commands.
#[derive(Drop)]
pub struct Draft {
    lines: Vec<Line>,
}

impl Model for Draft {
    ghost use Rattle.std.specs.Prelude.{List};
    ghost use Rattle.script_grammar.specs.declared.line.Command.{Command};
    ghost use Rattle.drill_maker.specs.Draft.{IsDraft, commands_of};

    ghost Value = { List Command };

    ghost view = { λ d. commands_of d.lines.items };

    ghost invariant = { λ d. IsDraft d.lines.items };
}

fn node_line(number: u32) -> Line
    ensures { result ≡ record { number = number; command = Command.Node 256 } }
{
    Line {
        number,
        command: Command::Node { ring: RING },
    }
}

impl Draft {
    /// Begins with the three nodes.
    pub fn new(memory: &mut Memory) -> Result<Draft, NoMemory>
        ensures begun { IfOk result (λ draft. draft ≡ nodes) }
        ensures cause { HasCause memory.old memory.new result }
    {
        let lines = vec![in memory.alloc();
            node_line(FIRST_LINE),
            node_line(FIRST_LINE + 1),
            node_line(FIRST_LINE + 2),
        ];
        let lines = memory.of(lines.map_err(AllocError::from))?;
        Ok(Draft { lines })
    }

    /// Puts a command on the next line. Where there is no memory for it nothing changes.
    pub fn add(&mut self, memory: &mut Memory, command: Command) -> Result<(), NoMemory>
        requires room { length self.old + 2 ≤ MOST_LINES }
        requires drilled { IsDrilled command }
        ensures added { OnOk result (self.new ≡ self.old ++ command ∷ []) }
        ensures unchanged { OnErr result (self.new ≡ self.old) }
        ensures cause { HasCause memory.old memory.new result }
    {
        let number = self.lines.len() as u32 + FIRST_LINE;
        memory.push(&mut self.lines, Line { number, command })?;
        Ok(())
    }

    /// The script that was made.
    pub fn into_script(self) -> Script
        ensures lines { result ≡ numbered 2 self }
        ensures keeps { All (λ line. KeepsSessions line.command) result }
    {
        Script::of(self.lines)
    }
}
