//! What the calls of a load ask, and which answers are right.
ghost use Rattle.std.specs.Prelude.{◌≡◌, ◌+◌, ◌≤◌, IfOk, length, reverse};
ghost use Rattle.std.specs.Str.{bytes_eq};
ghost use Rattle.command_line.specs.Answers.{IsLoadInRange};
ghost use Rattle.load_plan.specs.Calls.{asked_bytes, calls_of, counted_from, is_right, manner_of};
ghost use Rattle.load_plan.specs.Calls.{number_bytes, room_of};
ghost use Rattle.memory_count.specs.Faults.{HasCause};

use byteorder::{BigEndian, ByteOrder};
use command_line::LoadSpec;
use memory_count::{Memory, NoMemory};
use std::marker::Model;

/// Byte values, after which counted bytes begin again.
const BYTE_VALUES: u32 = 256;

/// The bytes of a tally, and of its answer.
const TALLY_BYTES: u32 = 8;

/// How the calls of a type ask, and what answers them.
#[derive(Clone, Copy, Debug, PartialEq, Eq)]
pub enum Manner {
    /// Bytes, answered with the same.
    Echo,
    /// Bytes, answered with the same from last to first.
    Reverse,
    /// A number of 8 bytes, answered with 8 bytes.
    Tally,
    /// A number of 4 bytes, answered with as many bytes.
    Fill,
}

impl Manner {
    /// The manner of a type: echo is that of each type that isn't named.
    pub fn of(req_type: u8) -> Manner
        ensures { result ≡ manner_of req_type }
    {
        match req_type {
            2 | 130 => Manner::Reverse,
            3 => Manner::Tally,
            4 | 132 => Manner::Fill,
            _ => Manner::Echo,
        }
    }
}

/// The calls of a load: their number, their type, their size, and the number that their bytes begin
/// with.
#[derive(Debug, Drop)]
pub struct Plan {
    pub calls: u32,
    pub req_type: u8,
    size: u32,
    seed: u32,
    // The size in big-endian bytes, for a type that asks for so many.
    number: Vec<u8>,
    // Byte j is j modulo 256, for 256 bytes more than the size.
    counted: Vec<u8>,
}

impl Model for Plan {
    ghost use Rattle.std.specs.Prelude.{◌≡◌, ◌≤◌, ◌+◌, length, true};
    ghost use Rattle.command_line.specs.Numbers.{is_type};
    ghost use Rattle.load_plan.specs.Calls.{Calls, counted_from, manner_of, number_bytes};

    ghost Value = { Calls };

    ghost view = { λ p. record {
      calls = p.calls;
      req_type = p.req_type;
      size = p.size;
      seed = p.seed;
    } };

    ghost invariant = { λ p. (p.size ≤ 1048576) × (is_type p.req_type ≡ true)
        × (p.number.items ≡ number_bytes (manner_of p.req_type) p.size)
        × (p.counted.items ≡ counted_from 0 (p.size + 256))
        × (length p.counted.items ≡ p.size + 256) };
}

fn count_up(memory: &mut Memory, n: u32) -> Result<Vec<u8>, NoMemory>
    ensures counted { IfOk result (λ v. v.items ≡ counted_from 0 n) }
    ensures cause { HasCause memory.old memory.new result }
{
    let bytes = (0..n).map(|j| (j % BYTE_VALUES) as u8);
    match bytes.collect(memory.alloc()) {
        Ok(counted) => Ok(counted),
        Err(refused) => memory.of(Err(refused)),
    }
}

fn number_of(memory: &mut Memory, manner: Manner, size: u32) -> Result<Vec<u8>, NoMemory>
    ensures number { IfOk result (λ v. v.items ≡ number_bytes manner size) }
    ensures cause { HasCause memory.old memory.new result }
{
    match manner {
        Manner::Tally => {
            let mut bytes = [0; 8];
            BigEndian::write_u64(&mut bytes, u64::from(size));
            memory.copied(&bytes)
        }
        Manner::Fill => {
            let mut bytes = [0; 4];
            BigEndian::write_u32(&mut bytes, size);
            memory.copied(&bytes)
        }
        Manner::Echo | Manner::Reverse => Ok(Vec::new(memory.alloc())),
    }
}

impl Plan {
    /// The calls that the words name.
    pub fn of(memory: &mut Memory, spec: &LoadSpec) -> Result<Plan, NoMemory>
        requires { IsLoadInRange spec.now }
        ensures calls { IfOk result (λ p. p ≡ calls_of spec.now) }
        ensures cause { HasCause memory.old memory.new result }
    {
        let manner = Manner::of(spec.req_type);
        let number = number_of(memory, manner, spec.size)?;
        let counted = count_up(memory, spec.size + BYTE_VALUES)?;
        Ok(Plan {
            calls: spec.calls,
            req_type: spec.req_type,
            size: spec.size,
            seed: spec.seed,
            number,
            counted,
        })
    }

    // As many counted bytes as the size tells, from `first` on modulo 256.
    fn counted_from(&self, first: u64) -> &[u8]
        ensures { result.now ≡ counted_from first self.now.size }
    {
        let first = (first % u64::from(BYTE_VALUES)) as usize;
        &self.counted[first..first + self.size as usize]
    }

    // The bytes that call `call` asks, of a type that asks counted bytes.
    fn counted_ask(&self, call: u64) -> &[u8]
        ensures bytes { result.now ≡ counted_from (self.now.seed + call) self.now.size }
        ensures most { length result.now ≤ 1048576 }
    {
        let values = u64::from(BYTE_VALUES);
        self.counted_from(u64::from(self.seed) % values + call % values)
    }

    /// The bytes that call `call` asks, from 0 on: at most 1,048,576.
    pub fn ask(&self, call: u64) -> &[u8]
        ensures bytes { result.now ≡ asked_bytes self.now call }
        ensures most { length result.now ≤ 1048576 }
    {
        match Manner::of(self.req_type) {
            Manner::Tally | Manner::Fill => &self.number,
            Manner::Echo | Manner::Reverse => self.counted_ask(call),
        }
    }

    /// The room for an answer, in bytes.
    pub fn room(&self) -> u32
        ensures room { result ≡ room_of self.now }
        ensures most { result ≤ 1048576 }
    {
        match Manner::of(self.req_type) {
            Manner::Tally => TALLY_BYTES,
            Manner::Echo | Manner::Reverse | Manner::Fill => self.size,
        }
    }

    // Whether these are the counted bytes that call `call` asks.
    fn is_echo(&self, call: u64, answer: &[u8]) -> bool
        ensures { result ≡ bytes_eq answer.now
            (counted_from (self.now.seed + call) self.now.size) }
    {
        answer == self.counted_ask(call)
    }

    // Whether these are those bytes from last to first.
    fn is_reverse(&self, call: u64, answer: &[u8]) -> bool
        ensures { result ≡ bytes_eq answer.now
            (reverse (counted_from (self.now.seed + call) self.now.size)) }
    {
        let mut rest = self.counted_ask(call);
        'bytes: for byte in answer {
            let Some((last, front)) = rest.split_last() else {
                return false;
            };
            if last != byte {
                return false;
            }
            rest = front;
        }
        rest.is_empty()
    }

    // Whether these are as many counted bytes as the size tells.
    fn is_fill(&self, answer: &[u8]) -> bool
        ensures { result ≡ bytes_eq answer.now (counted_from 0 self.now.size) }
    {
        answer == self.counted_from(0)
    }

    /// Whether these bytes are a right answer to call `call`.
    pub fn is_right(&self, call: u64, answer: &[u8]) -> bool
        ensures { result ≡ is_right self.now call answer.now }
    {
        match Manner::of(self.req_type) {
            Manner::Echo => self.is_echo(call, answer),
            Manner::Reverse => self.is_reverse(call, answer),
            Manner::Tally => answer.len() == TALLY_BYTES as usize,
            Manner::Fill => self.is_fill(answer),
        }
    }
}
