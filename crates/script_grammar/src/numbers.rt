//! Numbers, as a script spells them.
ghost use Rattle.std.specs.Prelude.{◌≡◌, ◌≤◌, min, IfOk};
ghost use Rattle.std.specs.Char.{is_ascii_digit};
ghost use Rattle.std.specs.List.{list_all};
ghost use Rattle.script_grammar.specs.Numbers.{is_numeral, value_of, number_in, node_in};

use crate::bad::BadWhy;
use rpc_base::NodeId;

/// More than any number of a script. Numbers are counted no further, however many digits they have.
const TOO_MUCH: u64 = 1 << 32;
/// Stands for all higher numbers of nodes: no script has that many.
const NO_NODE: u64 = 255;

/// Tells whether all bytes are decimal digits.
fn are_digits(word: &[u8]) -> bool
    ensures { result ≡ list_all is_ascii_digit word.now }
{
    word.iter().all(|b| b.is_ascii_digit())
}

/// Tells whether the word is a number: digits, of which the first is 0 only where it stands alone.
#[tactic(auto, unfolding(crate::specs::Numbers::is_numeral))]
fn is_numeral(word: &[u8]) -> bool
    ensures { result ≡ is_numeral word.now }
{
    if word.is_empty() || !are_digits(word) {
        return false;
    }
    word.len() == 1 || word[0] != b'0'
}

/// The number that the digits write, or `TOO_MUCH` where it is more.
fn value(digits: &[u8]) -> u64
    ensures { result ≡ min TOO_MUCH (value_of digits.now) }
{
    let mut value = 0;
    for digit in digits {
        value = (10 * value + u64::from(digit.saturating_sub(b'0'))).min(TOO_MUCH);
    }
    value
}

/// The number that a word spells, from `low` to `high`.
#[tactic(auto, unfolding(crate::specs::Numbers::number_in))]
pub fn number(word: &[u8], low: u32, high: u32) -> Result<u32, BadWhy>
    ensures value { result ≡ number_in low high word.now }
    ensures range { IfOk result (λ n. (low ≤ n) × (n ≤ high)) }
{
    if !is_numeral(word) {
        return Err(BadWhy::Number);
    }
    let value = value(word);
    if value < u64::from(low) || value > u64::from(high) {
        return Err(BadWhy::Number);
    }
    Ok(value as u32)
}

/// The node that a word names, which need not be declared.
#[tactic(auto, unfolding(crate::specs::Numbers::node_in))]
pub fn node(word: &[u8]) -> Result<NodeId, BadWhy>
    ensures { result ≡ node_in word.now }
{
    if !is_numeral(word) {
        return Err(BadWhy::Number);
    }
    Ok(NodeId(value(word).min(NO_NODE) as u8))
}
