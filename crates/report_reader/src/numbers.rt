//! The numbers that the words of a line write. A word that is no numeral writes some number too:
//! the
//! reader of lines compares what it read with the line.
ghost use Rattle.std.specs.Prelude.{◌≡◌, ◌<◌, ◌≤◌, min, IfSome};
ghost use Rattle.script_grammar.specs.Numbers.{value_of};
ghost use Rattle.report_reader.specs.Words.{num, number, owner_at, words_of};

use crate::words::{is_word, word_at};
use rpc_base::{CallNo, Owner, Peer, RequestNo, SessionNo};

/// More than any number of a report. Numbers are counted no further, however many digits they have.
const TOO_MUCH: u128 = 1 << 64;
/// The greatest number of a request.
const LAST_REQUEST: u64 = 281_474_976_710_655;

// The number that a word writes, or `TOO_MUCH` where it is more.
fn value(digits: &[u8]) -> u128
    ensures { result ≡ min 18446744073709551616 (value_of digits.now) }
{
    let mut value: u128 = 0;
    for digit in digits {
        value = (10 * value + u128::from(digit.saturating_sub(b'0'))).min(TOO_MUCH);
    }
    value
}

// The number that a word writes, where it is at most `most`.
#[tactic(auto, unfolding(crate::specs::Words::number))]
fn number(word: &[u8], most: u64) -> Option<u64>
    ensures number { result ≡ number most word.now }
    ensures range { IfSome result (λ n. n ≤ most) }
{
    let value = value(word);
    if value <= u128::from(most) {
        Some(value as u64)
    } else {
        None
    }
}

// The number that word `i` writes, where it is at most `most`.
fn at_most(line: &[u8], i: usize, most: u64) -> Option<u64>
    ensures number { result ≡ num most i (words_of line.now) }
    ensures range { IfSome result (λ n. n ≤ most) }
{
    number(word_at(line, i), most)
}

/// The number that word `i` writes, of 64 bits.
pub fn number_at(line: &[u8], i: usize) -> Option<u64>
    ensures { result ≡ num 18446744073709551615 i (words_of line.now) }
{
    at_most(line, i, u64::MAX)
}

/// A number of 32 bits.
pub fn word_number_at(line: &[u8], i: usize) -> Option<u32>
    ensures { result ≡ num 4294967295 i (words_of line.now) }
{
    match at_most(line, i, 4_294_967_295) {
        None => None,
        Some(number) => Some(number as u32),
    }
}

/// A number of 16 bits.
pub fn half_at(line: &[u8], i: usize) -> Option<u16>
    ensures { result ≡ num 65535 i (words_of line.now) }
{
    match at_most(line, i, 65_535) {
        None => None,
        Some(number) => Some(number as u16),
    }
}

/// A number of 8 bits.
pub fn small_at(line: &[u8], i: usize) -> Option<u8>
    ensures { result ≡ num 255 i (words_of line.now) }
{
    match at_most(line, i, 255) {
        None => None,
        Some(number) => Some(number as u8),
    }
}

/// The number of a session.
pub fn session_at(line: &[u8], i: usize) -> Option<SessionNo>
    ensures { result ≡ num 65535 i (words_of line.now) }
{
    match half_at(line, i) {
        None => None,
        Some(number) => Some(SessionNo(number)),
    }
}

/// The number of a peer.
pub fn peer_at(line: &[u8], i: usize) -> Option<Peer>
    ensures { result ≡ num 255 i (words_of line.now) }
{
    match small_at(line, i) {
        None => None,
        Some(number) => Some(Peer(number)),
    }
}

/// The number of a call.
pub fn call_at(line: &[u8], i: usize) -> Option<CallNo>
    ensures { result ≡ num 18446744073709551615 i (words_of line.now) }
{
    match number_at(line, i) {
        None => None,
        Some(number) => Some(CallNo(number)),
    }
}

// The request of this number.
fn request_of(number: u64) -> RequestNo
    requires { number ≤ LAST_REQUEST }
    ensures { result ≡ number }
{
    RequestNo::of((number % 8) as u8, number / 8)
}

/// The number of a request.
pub fn request_at(line: &[u8], i: usize) -> Option<RequestNo>
    ensures { result ≡ num 281474976710655 i (words_of line.now) }
{
    match at_most(line, i, LAST_REQUEST) {
        None => None,
        Some(number) => Some(request_of(number)),
    }
}

/// The owner of a packet, by three words from word `i` on.
#[tactic(auto, unfolding(crate::specs::Words::owner_at))]
pub fn owner_at(line: &[u8], i: usize) -> Option<Owner>
    requires { i < 16 }
    ensures { result ≡ owner_at i (words_of line.now) }
{
    if is_word(word_at(line, i), b"c") {
        let session = session_at(line, i + 1)?;
        let request = request_at(line, i + 2)?;
        Some(Owner::Ask { session, request })
    } else if is_word(word_at(line, i), b"s") {
        let session = session_at(line, i + 1)?;
        let request = request_at(line, i + 2)?;
        Some(Owner::Reply { session, request })
    } else {
        Some(Owner::Control)
    }
}
