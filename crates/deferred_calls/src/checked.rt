//! A duty that tells answers from other bytes.
ghost use Rattle.std.specs.Prelude.{◌≡◌, ◌↔◌, IsTrue, length, reverse};
ghost use Rattle.byteorder.specs.Endian.{big_number};
ghost use Rattle.rpc_outside.specs.PlainAnswer.{counted, fill};

use byteorder::{BigEndian, ByteOrder};
use rpc_base::MOST_MESSAGE_BYTES;
use rpc_outside::{Duty, PlainDuty};

/// The bytes that say how long a fill is.
const FILL_BYTES: usize = 4;

/// A duty that can check an answer.
pub trait Checked: Duty {
    /// Whether these bytes are the answer.
    fn fits(&self, req_type: u8, ask: &[u8], out: &[u8]) -> bool
        ensures { IsTrue result ↔ (out.now ≡ Self.answer req_type ask.now) };
}

/// Whether these bytes are those that are asked, backwards.
fn is_backwards(ask: &[u8], out: &[u8]) -> bool
    ensures { IsTrue result ↔ (out.now ≡ reverse ask.now) }
{
    if out.len() != ask.len() {
        return false;
    }
    for i in 0..out.len() {
        if out[i] != ask[ask.len() - 1 - i] {
            return false;
        }
    }
    true
}

/// Whether byte j is j mod 256.
#[tactic(auto, using(crate::proofs::FitsLemmas::counts_yes, crate::proofs::FitsLemmas::counts_no))]
fn counts_up(out: &[u8]) -> bool
    ensures { IsTrue result ↔ (out.now ≡ counted (length out.now)) }
{
    for j in 0..out.len() {
        if usize::from(out[j]) != j % 256 {
            return false;
        }
    }
    true
}

/// The number that the four bytes of a fill write.
fn fill_count(ask: &[u8]) -> u32
    requires { length ask.now ≡ FILL_BYTES }
    ensures { result ≡ big_number 4 ask.now }
{
    BigEndian::read_u32(ask)
}

/// How many bytes a fill is.
fn fill_len(ask: &[u8]) -> u32
    ensures { result ≡ length (fill ask.now) }
{
    if ask.len() != FILL_BYTES {
        return 0;
    }
    let count = fill_count(ask);
    if count > MOST_MESSAGE_BYTES { 0 } else { count }
}

/// Whether these bytes are the fill that is asked.
#[tactic(auto, using(crate::proofs::FitsLemmas::fill_yes, crate::proofs::FitsLemmas::fill_counts))]
fn is_fill(ask: &[u8], out: &[u8]) -> bool
    ensures { IsTrue result ↔ (out.now ≡ fill ask.now) }
{
    if out.len() != fill_len(ask) as usize {
        return false;
    }
    counts_up(out)
}

impl Checked for PlainDuty {
    fn fits(&self, req_type: u8, ask: &[u8], out: &[u8]) -> bool {
        match req_type {
            129 => out == ask,
            130 => is_backwards(ask, out),
            132 => is_fill(ask, out),
            _ => out.is_empty(),
        }
    }
}
