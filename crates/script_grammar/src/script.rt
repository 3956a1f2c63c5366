//! A script: commands with their lines.
ghost use Rattle.std.specs.Prelude.{◌≡◌};
ghost use Rattle.script_grammar.specs.Conditions.{IsScript};

use crate::line::Line;
use std::marker::Model;

/// The commands of a script with their lines, in order. Contracts see it as the list of them. The
/// line numbers rise, each number of a command is in its range, 2 to 8 node lines come first, and
/// the commands after them name no other nodes.
#[derive(Debug, Drop)]
pub struct Script {
    lines: Vec<Line>,
}

impl Model for Script {
    ghost use Rattle.std.specs.Prelude.{List};
    ghost use Rattle.script_grammar.specs.declared.line.Line.{Line};
    ghost use Rattle.script_grammar.specs.Conditions.{IsScript};

    ghost Value = { List Line };

    ghost view = { λ s. s.lines.items };

    ghost invariant = { λ s. IsScript s.lines.items };
}

impl Script {
    /// Makes a script of lines that are one.
    pub fn of(lines: Vec<Line>) -> Script
        requires { IsScript lines.items }
        ensures { result ≡ lines.items }
    {
        Script { lines }
    }

    /// Lends the lines that have a command, in order.
    pub fn lines(&self) -> &[Line]
        ensures lines { result.now ≡ self.now }
        ensures script { IsScript self.now }
    {
        self.lines.as_slice()
    }
}
