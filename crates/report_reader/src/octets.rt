//! The bytes that words write in hexadecimal digits.
ghost use Rattle.std.specs.Prelude.{◌≡◌, ◌*◌, ◌<◌, ◌≤◌, ◌+◌, length, Some, IfSome, IfOk, IfNone};
ghost use Rattle.std.specs.Prelude.{None};
ghost use Rattle.memory_count.specs.Faults.{HasCause};
ghost use Rattle.script_grammar.specs.Ask.{hex_digit, hex_byte, hex_bytes};
ghost use Rattle.report_reader.specs.Facts.{first_in, octets_at, octets_named, second_in};
ghost use Rattle.report_reader.specs.Words.{words_of};

use crate::words::{is_word, word_at};
use memory_count::{Memory, NoMemory};
use rpc_base::Octets;

/// Which words of a line have its bytes, by their places. Word 0 is where it happened.
#[derive(Clone, Copy)]
pub enum Shown {
    NoWord,
    OneWord(usize),
    TwoWords(usize, usize),
}

// The value of a digit, 0 to 9 or a to f.
#[tactic(auto, unfolding(script_grammar::specs::Ask::hex_digit))]
fn hex_digit(b: u8) -> Option<u8>
    ensures value { result ≡ hex_digit b }
    ensures range { IfSome result (λ digit. digit < 16) }
{
    match b {
        b'0'..=b'9' => Some(b - b'0'),
        b'a'..=b'f' => Some(b - b'a' + 10),
        _ => None,
    }
}

// The byte that two digits write.
#[tactic(auto, unfolding(script_grammar::specs::Ask::hex_byte))]
fn hex_byte(high: u8, low: u8) -> Option<u8>
    ensures { result ≡ hex_byte high low }
{
    let high = hex_digit(high)?;
    let low = hex_digit(low)?;
    Some(16 * high + low)
}

// The bytes that pairs of digits write; None where a digit is none, or stands alone.
fn hex_bytes(memory: &mut Memory, word: &[u8]) -> Result<Option<Octets>, NoMemory>
    ensures value { IfOk result (λ o. o ≡ hex_bytes word.now) }
    ensures cause { HasCause memory.old memory.new result }
{
    let mut bytes = memory.list(word.len() / 2)?;
    let mut rest = word;
    while let [high, low, after @ ..] = rest {
        match hex_byte(*high, *low) {
            Some(byte) => memory.push(&mut bytes, byte)?,
            None => return Ok(None),
        }
        rest = after;
    }
    if !rest.is_empty() {
        return Ok(None);
    }
    Ok(Some(Octets::from(bytes)))
}

// The bytes that a word writes; a dash is none.
#[tactic(auto, unfolding(crate::specs::Facts::octets_named))]
fn octets_named(memory: &mut Memory, word: &[u8]) -> Result<Option<Octets>, NoMemory>
    ensures value { IfOk result (λ o. o ≡ octets_named word.now) }
    ensures cause { HasCause memory.old memory.new result }
{
    if is_word(word, b"-") {
        return Ok(Some(Octets::from(Vec::new(memory.alloc()))));
    }
    hex_bytes(memory, word)
}

/// The first bytes of a line with these words. `NoMemory` comes only where memory for them was
/// refused.
#[tactic(auto, unfolding(crate::specs::Facts::first_in))]
pub fn first_in(memory: &mut Memory, shown: Shown, line: &[u8]) -> Result<Option<Octets>, NoMemory>
    ensures value { IfOk result (λ o. o ≡ first_in shown (words_of line.now)) }
    ensures cause { HasCause memory.old memory.new result }
{
    match shown {
        Shown::NoWord => Ok(Some(Octets::from(Vec::new(memory.alloc())))),
        Shown::OneWord(place) => octets_named(memory, word_at(line, place)),
        Shown::TwoWords(place, _) => octets_named(memory, word_at(line, place)),
    }
}

/// The second bytes of a line with these words. `NoMemory` comes only where memory for them was
/// refused.
#[tactic(auto, unfolding(crate::specs::Facts::second_in))]
pub fn second_in(memory: &mut Memory, shown: Shown, line: &[u8]) -> Result<Option<Octets>, NoMemory>
    ensures value { IfOk result (λ o. o ≡ second_in shown (words_of line.now)) }
    ensures cause { HasCause memory.old memory.new result }
{
    match shown {
        Shown::NoWord | Shown::OneWord(_) => Ok(Some(Octets::from(Vec::new(memory.alloc())))),
        Shown::TwoWords(_, place) => octets_named(memory, word_at(line, place)),
    }
}
