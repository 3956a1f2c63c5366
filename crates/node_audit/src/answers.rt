//! Whether an answer is the plain service's: "The plain service" of docs/PROTOCOL.md.
ghost use Rattle.std.specs.Prelude.{◌≡◌, ◌↔◌, IfOk, IsTrue, length, reverse};
ghost use Rattle.byteorder.specs.Endian.{big_number};
ghost use Rattle.memory_count.specs.Faults.{HasCause};
ghost use Rattle.rpc_laws.specs.Service.{answer_with};
ghost use Rattle.rpc_outside.specs.PlainAnswer.{added, counted, fill, steady_answer, tally};
ghost use Rattle.rpc_outside.specs.PlainAnswer.{total_with};
ghost use Rattle.node_audit.specs.Steady.{steady_kind};

use byteorder::{BigEndian, ByteOrder};
use memory_count::{Memory, NoMemory};
use rpc_base::MOST_MESSAGE_BYTES;

/// The types of the event loop.
const ECHO: u8 = 1;

const REVERSE: u8 = 2;

const TALLY: u8 = 3;

const FILL: u8 = 4;

/// The bytes of a tally and of its answer.
const TALLY_BYTES: usize = 8;

/// The bytes that say how long a fill is.
const FILL_BYTES: usize = 4;

/// A type that a worker serves is one of the event loop's, and so many more.
const IN_BACKGROUND: u8 = 128;

// The request's own bytes from the last to the first.
fn reversed(memory: &mut Memory, ask: &[u8]) -> Result<Vec<u8>, NoMemory>
    ensures back { IfOk result (λ back. back.items ≡ reverse ask.now) }
    ensures cause { HasCause memory.old memory.new result }
{
    let mut back = memory.copied(ask)?;
    back.as_mut_slice().reverse();
    Ok(back)
}

fn is_reversed(memory: &mut Memory, ask: &[u8], answer: &[u8]) -> Result<bool, NoMemory>
    ensures answer { IfOk result (λ b. IsTrue b ↔ (answer.now ≡ reverse ask.now)) }
    ensures cause { HasCause memory.old memory.new result }
{
    let back = reversed(memory, ask)?;
    Ok(answer == back.as_slice())
}

// Whether byte j is j mod 256.
fn counts_up(bytes: &[u8]) -> bool
    ensures { IsTrue result ↔ (bytes.now ≡ counted (length bytes.now)) }
{
    for j in 0..bytes.len() {
        if usize::from(bytes[j]) != j % 256 {
            return false;
        }
    }
    true
}

// The number that the four bytes of a fill write.
fn fill_count(ask: &[u8]) -> u32
    requires { length ask.now ≡ FILL_BYTES }
    ensures { result ≡ big_number 4 ask.now }
{
    BigEndian::read_u32(ask)
}

// How many bytes a fill is.
fn fill_len(ask: &[u8]) -> u32
    ensures { result ≡ length (fill ask.now) }
{
    if ask.len() != FILL_BYTES {
        return 0;
    }
    let count = fill_count(ask);
    if count > MOST_MESSAGE_BYTES { 0 } else { count }
}

fn is_fill(ask: &[u8], answer: &[u8]) -> bool
    ensures { IsTrue result ↔ (answer.now ≡ fill ask.now) }
{
    if answer.len() != fill_len(ask) as usize {
        return false;
    }
    counts_up(answer)
}

// Echo, reverse or fill.
fn is_steady(memory: &mut Memory, kind: u8, ask: &[u8], answer: &[u8]) -> Result<bool, NoMemory>
    ensures answer { IfOk result (λ b. IsTrue b ↔ (answer.now ≡ steady_answer kind ask.now)) }
    ensures cause { HasCause memory.old memory.new result }
{
    if kind == ECHO {
        return Ok(answer == ask);
    }
    if kind == REVERSE {
        return is_reversed(memory, ask, answer);
    }
    if kind == FILL {
        return Ok(is_fill(ask, answer));
    }
    Ok(answer.is_empty())
}

// The type whose answer, without the tallies, a request of some type has.
fn steady_kind(req_type: u8) -> u8
    ensures { result ≡ steady_kind req_type }
{
    if req_type <= FILL {
        req_type
    } else if matches!(req_type, 129 | 130 | 132) {
        req_type - IN_BACKGROUND
    } else {
        0
    }
}

// The number that a tally adds.
fn tally_number(ask: &[u8]) -> u64
    requires { length ask.now ≡ TALLY_BYTES }
    ensures { result ≡ big_number 8 ask.now }
{
    BigEndian::read_u64(ask)
}

// What a request adds to the total.
fn added(req_type: u8, ask: &[u8]) -> u64
    ensures { result ≡ added req_type ask.now }
{
    if req_type != TALLY || ask.len() != TALLY_BYTES {
        return 0;
    }
    tally_number(ask)
}

/// The total of the tallies with one more request.
pub fn total_with(total: u64, req_type: u8, ask: &[u8]) -> u64
    ensures { result ≡ total_with total req_type ask.now }
{
    total.wrapping_add(added(req_type, ask))
}

fn is_tally(total: u64, ask: &[u8], answer: &[u8]) -> bool
    ensures { IsTrue result ↔ (answer.now ≡ tally total ask.now) }
{
    if ask.len() != TALLY_BYTES {
        return answer.is_empty();
    }
    let mut bytes = [0u8; TALLY_BYTES];
    BigEndian::write_u64(&mut bytes, total_with(total, TALLY, ask));
    answer == bytes.as_slice()
}

/// Whether an answer to a request of this type is the plain service's, where the tallies before it
/// add up to this total. `NoMemory` comes only where memory to compare it was refused.
pub fn is_answer(
    memory: &mut Memory,
    total: u64,
    req_type: u8,
    ask: &[u8],
    answer: &[u8],
) -> Result<bool, NoMemory>
    ensures answer { IfOk result (λ b. IsTrue b
        ↔ (answer.now ≡ answer_with total req_type ask.now)) }
    ensures cause { HasCause memory.old memory.new result }
{
    if req_type == TALLY {
        return Ok(is_tally(total, ask, answer));
    }
    is_steady(memory, steady_kind(req_type), ask, answer)
}
