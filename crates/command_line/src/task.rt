//! What the words of a command line ask for.
use memory_count::NoMemory;
use packet_header::Life;
use std::error::Error;
use std::fmt;
use std::marker::Model;

/// What a run does where nothing comes for a while.
#[derive(Clone, Copy, Debug, PartialEq, Eq)]
pub enum Idle {
    /// It waits for the next datagram, for a short time.
    Sleep,
    /// It goes on turning.
    Spin,
}

/// The words of `serve`, read.
#[derive(Debug, Drop)]
pub struct ServeSpec {
    /// The address to which calls come, as it was written.
    pub addr: String,
    /// After so many turns the server ends; at least 1.
    pub turns: u32,
    /// So many hands work its jobs, at most 16; where there are none, it works them by itself.
    pub workers: u8,
    /// The life of its node: 1 where none was written.
    pub life: Life,
    /// The address of another server, which is asked for its background calls, as it was written;
    /// None where none was. With one there are no hands.
    pub relay: Option<String>,
    /// An unanswered packet is taken for lost after so many microseconds, 100 to 1,000,000; 5,000
    /// where none were written.
    pub timeout: u32,
    /// What it does where nothing comes.
    pub idle: Idle,
}

impl Model for ServeSpec {
    ghost use Rattle.std.specs.Prelude.{option_map};
    ghost use Rattle.std.specs.String.{string_bytes};
    ghost use Rattle.command_line.specs.Words.{ServeWords};

    ghost Value = { ServeWords };

    ghost view = { λ spec. record {
      addr = string_bytes spec.addr;
      turns = spec.turns;
      workers = spec.workers;
      life = spec.life;
      relay = option_map (λ addr. string_bytes addr) spec.relay;
      timeout = spec.timeout;
      idle = spec.idle;
    } };
}

/// The words of `load`, read.
#[derive(Debug, Drop)]
pub struct LoadSpec {
    /// The server's address, as it was written.
    pub addr: String,
    /// So many calls are asked, 1 to 1,000,000.
    pub calls: u32,
    /// Their request type: 1, 2, 3, 4, 129, 130 or 132.
    pub req_type: u8,
    /// The size of a call of a type that asks as many bytes as it is told, and what the other types
    /// ask for; at most 1,048,576 bytes.
    pub size: u32,
    /// The number that the bytes of the calls begin with.
    pub seed: u32,
    /// After so many turns the client gives up; at least 1.
    pub turns: u32,
    /// The client's own address, as it was written; `127.0.0.1:0` where none was.
    pub bind: String,
    /// Packets to the server may go several in a datagram of at most so many bytes, 1,088 to
    /// 65,507; each goes alone where none were written.
    pub frame: Option<u32>,
    /// The life of the client's node: 1 where none was written.
    pub life: Life,
    /// An unanswered packet is taken for lost after so many microseconds, 100 to 1,000,000; 5,000
    /// where none were written.
    pub timeout: u32,
    /// What it does where nothing comes.
    pub idle: Idle,
}

impl Model for LoadSpec {
    ghost use Rattle.std.specs.String.{string_bytes};
    ghost use Rattle.command_line.specs.Words.{LoadWords};

    ghost Value = { LoadWords };

    ghost view = { λ spec. record {
      addr = string_bytes spec.addr;
      calls = spec.calls;
      req_type = spec.req_type;
      size = spec.size;
      seed = spec.seed;
      turns = spec.turns;
      bind = string_bytes spec.bind;
      frame = spec.frame;
      life = spec.life;
      timeout = spec.timeout;
      idle = spec.idle;
    } };
}

/// What the words ask for, with their numbers in range.
#[derive(Debug, Drop)]
pub enum Task {
    /// To run the script that comes in.
    Sim,
    /// To run the script that `seed`, below 2^63, makes of so many `calls`, 1 to 10,000.
    Drill { seed: u64, calls: u32 },
    /// To answer calls that come to an address.
    Serve(ServeSpec),
    /// To ask calls of the server at an address.
    Load(LoadSpec),
    /// To say whether the report that comes in is lawful.
    Audit,
}

/// Why words ask for nothing.
#[derive(Clone, Copy, Debug, PartialEq, Eq)]
pub enum WordsError {
    /// They are not in the grammar.
    Usage,
    /// There was no memory to read them.
    NoMemory,
}

impl fmt::Display for WordsError {
    fn fmt<W: fmt::Write>(&self, f: &mut fmt::Formatter<W>) -> fmt::Result {
        f.write_str(match self {
            WordsError::Usage => "the words ask for nothing that this program does",
            WordsError::NoMemory => "out of memory",
        })
    }
}

impl Error for WordsError {}

impl From<NoMemory> for WordsError {
    ghost use Rattle.std.specs.Prelude.{◌≡◌};
    ghost use Rattle.command_line.specs.declared.task.WordsError.TheVariants.{NoMemory};

    ghost from_gives = { λ a e. e ≡ NoMemory };

    fn from(_: NoMemory) -> Self {
        WordsError::NoMemory
    }
}
