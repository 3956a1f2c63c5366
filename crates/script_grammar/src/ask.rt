//! The bytes that a call sends.
ghost use Rattle.std.specs.Prelude.{◌≡◌, ◌*◌, ◌<◌, ◌≤◌, length, Some, IfSome, IfOk, IfErr, ok_or};
ghost use Rattle.memory_count.specs.Faults.{HasRisenBy};
ghost use Rattle.script_grammar.specs.Ask.{hex_digit, hex_byte, hex_bytes, count_in, given_in};
ghost use Rattle.script_grammar.specs.Ask.{ask_in};
ghost use Rattle.script_grammar.specs.Conditions.{IsAskInRange};
ghost use Rattle.script_grammar.specs.Told.{IsRefusal, IsTold, lacks};

use crate::bad::BadWhy;
use crate::line::AskBytes;
use crate::numbers::number;
use crate::refusal::Refusal;
use crate::text::is_word;
use memory_count::Memory;
use rpc_base::Octets;

/// No call of a script sends more bytes.
pub const MOST_BYTES: u32 = 2_097_152;
/// No call has more hexadecimal digits.
const MOST_DIGITS: usize = 4_194_304;

/// The value of a digit, 0 to 9 or a to f.
#[tactic(auto, unfolding(crate::specs::Ask::hex_digit))]
fn hex_digit(b: u8) -> Option<u8>
    ensures value { result ≡ hex_digit b }
    ensures range { IfSome result (λ digit. digit < 16) }
{
    match b {
        b'0'..=b'9' => Some(b - b'0'),
        b'a'..=b'f' => Some(b - b'a' + 10),
        _ => None,
    }
}

/// The byte that two digits write.
#[tactic(auto, unfolding(crate::specs::Ask::hex_byte))]
fn hex_byte(high: u8, low: u8) -> Option<u8>
    ensures { result ≡ hex_byte high low }
{
    let high = hex_digit(high)?;
    let low = hex_digit(low)?;
    Some(16 * high + low)
}

/// The count of `*N`, from what stands after its star.
#[tactic(auto, unfolding(crate::specs::Ask::count_in))]
fn count(word: &[u8]) -> Result<AskBytes, BadWhy>
    ensures value { result ≡ count_in word.now }
    ensures range { IfOk result IsAskInRange }
{
    match number(word, 0, MOST_BYTES) {
        Ok(count) => Ok(AskBytes::Count(count)),
        Err(_) => Err(BadWhy::Hex),
    }
}

/// The bytes that pairs of hexadecimal digits write.
fn bytes_of(memory: &mut Memory, word: &[u8]) -> Result<Vec<u8>, Refusal>
    ensures len { IfOk result (λ bytes. 2 * length bytes.items ≤ length word.now) }
    ensures ok { IfOk result (λ bytes. hex_bytes word.now ≡ Some bytes.items) }
    ensures err { IfErr result (λ refusal. IsRefusal refusal
        (ok_or (hex_bytes word.now) BadWhy.Hex)) }
    ensures cause { HasRisenBy (lacks result) memory.old memory.new }
{
    let mut bytes = memory.list(word.len() / 2)?;
    let mut rest = word;
    while let [high, low, after @ ..] = rest {
        match hex_byte(*high, *low) {
            Some(byte) => memory.push(&mut bytes, byte)?,
            None => return Err(Refusal::Why(BadWhy::Hex)),
        }
        rest = after;
    }
    if !rest.is_empty() {
        return Err(Refusal::Why(BadWhy::Hex));
    }
    Ok(bytes)
}

/// The bytes that a word of hexadecimal digits writes, at most `MOST_DIGITS` of them.
#[tactic(auto, unfolding(crate::specs::Ask::given_in))]
fn given(memory: &mut Memory, word: &[u8]) -> Result<AskBytes, Refusal>
    ensures value { IsTold result (given_in word.now) }
    ensures range { IfOk result IsAskInRange }
    ensures cause { HasRisenBy (lacks result) memory.old memory.new }
{
    if word.len() > MOST_DIGITS {
        return Err(Refusal::Why(BadWhy::Hex));
    }
    let bytes = bytes_of(memory, word)?;
    Ok(AskBytes::Given(Octets::from(bytes)))
}

/// The bytes of a call, in one of their three forms.
#[tactic(auto, unfolding(crate::specs::Ask::ask_in))]
pub fn ask(memory: &mut Memory, word: &[u8]) -> Result<AskBytes, Refusal>
    ensures value { IsTold result (ask_in word.now) }
    ensures range { IfOk result IsAskInRange }
    ensures cause { HasRisenBy (lacks result) memory.old memory.new }
{
    if is_word(word, b"-") {
        return Ok(AskBytes::Given(Octets::from(Vec::new(memory.alloc()))));
    }
    if word.starts_with(b"*") {
        return Ok(count(&word[1..])?);
    }
    given(memory, word)
}
