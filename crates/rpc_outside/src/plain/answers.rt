//! What the plain service answers: echo, reverse, tally and fill.
ghost use Rattle.std.specs.Prelude.{◌≡◌, ◌≤◌, length};
ghost use Rattle.byteorder.specs.Endian.{big_number};
ghost use Rattle.rpc_outside.specs.PlainAnswer.{counted, fill, plain_mode, steady_answer, tally};
ghost use Rattle.rpc_outside.specs.PlainAnswer.{total_with};

use crate::service::Mode;
use byteorder::{BigEndian, ByteOrder};
use rpc_base::MOST_MESSAGE_BYTES;

/// The type of a tally.
pub const TALLY: u8 = 3;

/// The bytes of a tally and of its answer.
pub const TALLY_BYTES: usize = 8;

/// The bytes that say how long a fill is.
const FILL_BYTES: usize = 4;

/// How the plain service handles the requests of a type.
pub fn mode_of(req_type: u8) -> Mode
    ensures { result ≡ plain_mode req_type }
{
    match req_type {
        1..=4 => Mode::Inline,
        129 | 130 | 132 => Mode::Background,
        _ => Mode::Unserved,
    }
}

/// The number that the four bytes of a fill write.
fn fill_count(ask: &[u8]) -> u32
    requires { length ask.now ≡ FILL_BYTES }
    ensures { result ≡ big_number 4 ask.now }
{
    BigEndian::read_u32(ask)
}

/// How many bytes a fill is.
pub fn fill_len(ask: &[u8]) -> u32
    ensures length { result ≡ length (fill ask.now) }
    ensures most { result ≤ MOST_MESSAGE_BYTES }
{
    if ask.len() != FILL_BYTES {
        return 0;
    }
    let count = fill_count(ask);
    if count > MOST_MESSAGE_BYTES { 0 } else { count }
}

/// Byte j is j mod 256.
fn count_up(out: &mut [u8])
    ensures { out.new ≡ counted (length out.old) }
{
    for (j, byte) in out.iter_mut().enumerate() {
        *byte = (j % 256) as u8;
    }
}

/// Echo, reverse or fill, into as many bytes as the answer has.
pub fn answer_steadily(req_type: u8, ask: &[u8], out: &mut [u8])
    requires { length (steady_answer req_type ask.now) ≡ length out.old }
    ensures { out.new ≡ steady_answer req_type ask.now }
{
    match req_type {
        1 => out.copy_from_slice(ask),
        2 => {
            out.copy_from_slice(ask);
            out.reverse();
        }
        4 => count_up(out),
        _ => {}
    }
}

/// The number that a tally adds.
fn tally_number(ask: &[u8]) -> u64
    requires { length ask.now ≡ TALLY_BYTES }
    ensures { result ≡ big_number 8 ask.now }
{
    BigEndian::read_u64(ask)
}

/// The total with a tally, which is its answer. A request of another length changes nothing and has
/// no answer.
pub fn tally(total: u64, ask: &[u8], out: &mut [u8]) -> u64
    requires { length (tally total ask.now) ≡ length out.old }
    ensures answer { out.new ≡ tally total ask.now }
    ensures total { result ≡ total_with total 3 ask.now }
{
    if ask.len() != TALLY_BYTES {
        return total;
    }
    let total = total.wrapping_add(tally_number(ask));
    BigEndian::write_u64(out, total);
    total
}
