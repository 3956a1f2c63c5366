//! How a run of the program ended.
ghost use Rattle.std.specs.Prelude.{◌≡◌, ◌++◌, Some, codes};
ghost use Rattle.run_status.specs.Codes.{code_of};
ghost use Rattle.script_grammar.specs.Shown.{bad_text};

use script_grammar::BadScript;
use std::fmt;

/// How a run ended.
#[derive(Clone, Copy, Debug, PartialEq, Eq)]
pub enum Status {
    /// All was done and written.
    Done,
    /// The words are not in the grammar of the command line.
    Usage,
    /// The script is bad.
    BadScript(BadScript),
    /// The source failed.
    ReadFault,
    /// The sink failed; a front of what was to be written was.
    WriteFault,
    /// There was no memory.
    NoMemory,
    /// The link failed.
    LinkFault,
    /// The session of a load ended, and not all of its calls ended well.
    CallsFailed,
    /// All turns of a load were made, and its session hasn't ended.
    TurnsSpent,
    /// The report that was audited isn't lawful: it fails at this line, counted from 1.
    NotLawful { line: u64 },
    /// The report is longer than what is audited.
    TooLong,
}

impl Status {
    /// The exit code, from 0 for `Done` on in the order written.
    pub fn code(&self) -> u8
        ensures { result ≡ code_of self.now }
    {
        match self {
            Status::Done => 0,
            Status::Usage => 1,
            Status::BadScript(_) => 2,
            Status::ReadFault => 3,
            Status::WriteFault => 4,
            Status::NoMemory => 5,
            Status::LinkFault => 6,
            Status::CallsFailed => 7,
            Status::TurnsSpent => 8,
            Status::NotLawful { .. } => 9,
            Status::TooLong => 10,
        }
    }
}

/// The line that a user reads on standard error.
impl fmt::Display for Status {
    fn fmt<W: fmt::Write>(&self, f: &mut fmt::Formatter<W>) -> fmt::Result {
        match self {
            Status::Done => f.write_str("done"),
            Status::Usage => f.write_str("the words are not in the grammar; erpc help tells it"),
            Status::BadScript(bad) => write!(f, "bad script: {bad}"),
            Status::ReadFault => f.write_str("standard input could not be read to its end"),
            Status::WriteFault => f.write_str("the output could not be written"),
            Status::NoMemory => f.write_str("out of memory"),
            Status::LinkFault => f.write_str("the network link failed"),
            Status::CallsFailed => f.write_str("not all calls ended well"),
            Status::TurnsSpent => f.write_str("all turns were made before the calls ended"),
            Status::NotLawful { line } => write!(f, "the report fails at line {line}"),
            Status::TooLong => f.write_str("the report has more than 67,108,864 bytes"),
        }
    }
}
