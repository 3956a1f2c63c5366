//! Why a text is no script.
ghost use Rattle.std.specs.Prelude.{◌≡◌};

use memory_count::NoMemory;
use std::error::Error;
use std::fmt;

/// What is wrong with a line. On one line the reasons are tried in this order.
#[derive(Clone, Copy, Debug, PartialEq, Eq)]
pub enum BadWhy {
    /// The script has more than 16,777,216 bytes; told at line 0, before all lines.
    TooLong,
    /// Line 100,001 is there.
    Lines,
    /// Line 1 isn't `erpc-sim 1`; an empty script has it at line 1.
    First,
    /// The first word isn't a command.
    Word,
    /// Another count of words, an empty word, or a word without its `ring=`, `credits=` or `room=`.
    Shape,
    /// A number that isn't decimal, has a sign or leading zeros, or is out of its range.
    Number,
    /// The bytes of a call are neither `-`, nor an even count of lower-case hexadecimal digits, nor
    /// `*` and a number; or there are more than 2,097,152 of them.
    Hex,
    /// A ninth node line, a node line after another command, or another command before two nodes;
    /// where the script ends with fewer than two nodes, one past its last line.
    Nodes,
    /// A node that no line before declares.
    Node,
    /// A pair or a connect of a node with itself.
    Same,
}

/// The first bad line of a script, counted from 1, and what is wrong with it.
#[derive(Clone, Copy, Debug, PartialEq, Eq)]
pub struct BadScript {
    pub line: u32,
    pub why: BadWhy,
}

/// Why a script was not read.
#[derive(Clone, Copy, Debug, PartialEq, Eq)]
pub enum ReadError {
    /// It is no script.
    Bad(BadScript),
    /// There is no memory for its commands.
    NoMemory,
}

impl fmt::Display for BadWhy {
    ghost use Rattle.std.specs.Prelude.{Some};
    ghost use Rattle.script_grammar.specs.Shown.{why_text};

    ghost output = { λ x. Some (why_text x) };

    fn fmt<W: fmt::Write>(&self, f: &mut fmt::Formatter<W>) -> fmt::Result {
        f.write_str(match self {
            BadWhy::TooLong => "TooLong",
            BadWhy::Lines => "Lines",
            BadWhy::First => "First",
            BadWhy::Word => "Word",
            BadWhy::Shape => "Shape",
            BadWhy::Number => "Number",
            BadWhy::Hex => "Hex",
            BadWhy::Nodes => "Nodes",
            BadWhy::Node => "Node",
            BadWhy::Same => "Same",
        })
    }
}

impl fmt::Display for BadScript {
    ghost use Rattle.std.specs.Prelude.{Some};
    ghost use Rattle.script_grammar.specs.Shown.{bad_text};

    ghost output = { λ x. Some (bad_text x) };

    fn fmt<W: fmt::Write>(&self, f: &mut fmt::Formatter<W>) -> fmt::Result {
        write!(f, "line {}: {}", self.line, self.why)
    }
}

impl fmt::Display for ReadError {
    ghost use Rattle.std.specs.Prelude.{Some};
    ghost use Rattle.script_grammar.specs.Shown.{error_text};

    ghost output = { λ x. Some (error_text x) };

    fn fmt<W: fmt::Write>(&self, f: &mut fmt::Formatter<W>) -> fmt::Result {
        match self {
            ReadError::Bad(bad) => write!(f, "{bad}"),
            ReadError::NoMemory => f.write_str("out of memory"),
        }
    }
}

impl Error for BadWhy {}

impl Error for BadScript {}

impl Error for ReadError {}

impl From<NoMemory> for ReadError {
    ghost use Rattle.script_grammar.specs.declared.bad.ReadError.{ReadError};

    ghost from_gives = { λ _ error. error ≡ ReadError.NoMemory };

    fn from(_error: NoMemory) -> Self {
        ReadError::NoMemory
    }
}
