//! Numbers among the words.
ghost use Rattle.std.specs.Prelude.{◌≡◌, ◌<◌, ◌≤◌, min, true, IfSome, codes, option_map};
ghost use Rattle.std.specs.Char.{is_ascii_digit};
ghost use Rattle.std.specs.List.{list_all};
ghost use Rattle.clap.specs.Words.{first_of, found_of, rows_of};
ghost use Rattle.command_line.specs.Numbers.{is_type, most_workers, number_at, number_in};
ghost use Rattle.command_line.specs.Numbers.{type_at, workers_at};
ghost use Rattle.script_grammar.specs.Numbers.{is_numeral, value_of};

use crate::text::text_at;
use clap::ArgMatches;

/// Tells whether all bytes are decimal digits.
fn are_digits(text: &[u8]) -> bool
    ensures { result ≡ list_all is_ascii_digit text.now }
{
    text.iter().all(|byte| byte.is_ascii_digit())
}

/// Tells whether the text is a number: digits, of which the first is 0 only where it stands alone.
#[tactic(auto, unfolding(script_grammar::specs::Numbers::is_numeral))]
fn is_numeral(text: &[u8]) -> bool
    ensures { result ≡ is_numeral text.now }
{
    if text.is_empty() || !are_digits(text) {
        return false;
    }
    text.len() == 1 || text[0] != b'0'
}

/// The number that the digits write, or the highest of its type where it is more.
fn value(digits: &[u8]) -> u64
    ensures { result ≡ min u64.MAX (value_of digits.now) }
{
    let mut value: u64 = 0;
    for digit in digits {
        value = value
            .saturating_mul(10)
            .saturating_add(u64::from(digit.saturating_sub(b'0')));
    }
    value
}

/// The number that a text spells, from `low` to `high`.
#[tactic(auto, unfolding(crate::specs::Numbers::number_in))]
fn number_from(text: &[u8], low: u64, high: u64) -> Option<u64>
    requires { high < u64.MAX }
    ensures value { result ≡ number_in low high text.now }
    ensures range { IfSome result (λ n. (low ≤ n) × (n ≤ high)) }
{
    if !is_numeral(text) {
        return None;
    }
    let value = value(text);
    if value < low || value > high {
        return None;
    }
    Some(value)
}

/// A number among the words of a subcommand.
pub struct Number {
    /// Its argument.
    pub id: &'static str,
    /// What a user knows it by.
    pub shown: &'static str,
    /// It is no less.
    pub low: u64,
    /// It is no greater.
    pub high: u64,
    ghost bounded: { high < 18446744073709551615 },
}

impl Number {
    /// The number that the words give; None where they give none in its range.
    pub fn read(&self, matches: &ArgMatches<'_>) -> Option<u64>
        ensures value { result ≡ number_at self.now.low self.now.high self.now.id.now
            (rows_of (found_of matches.now)) }
        ensures range { IfSome result (λ n. (self.now.low ≤ n) × (n ≤ self.now.high)) }
    {
        let text = text_at(matches, self.id)?;
        number_from(text.as_bytes(), self.low, self.high)
    }
}

/// `load` asks calls of these types.
pub const TYPES: [u8; 7] = [1, 2, 3, 4, 129, 130, 132];

const TYPE: Number = Number {
    id: "type",
    shown: "--type",
    low: 0,
    high: u8::MAX as u64,
};

/// The request type that the words of `load` give; None where they give none of the list.
#[tactic(auto, unfolding(crate::specs::Numbers::type_at))]
pub fn request_type(matches: &ArgMatches<'_>) -> Option<u8>
    ensures value { result ≡ type_at (rows_of (found_of matches.now)) }
    ensures known { IfSome result (λ number. is_type number ≡ true) }
{
    let number = TYPE.read(matches)? as u8;
    if TYPES.contains(&number) {
        Some(number)
    } else {
        None
    }
}

/// No more threads work the jobs of `serve`.
pub const MOST_THREADS: u8 = 16;

// How many threads may work jobs, where the words give the address of another server or none.
fn most_workers(relay: Option<&str>) -> u64
    ensures value { result ≡ most_workers (option_map (λ addr. addr.now) relay.entry) }
    ensures bounded { result ≤ 16 }
{
    match relay {
        Some(_) => 0,
        None => u64::from(MOST_THREADS),
    }
}

/// How many threads the words of `serve` ask for; None where they give no number, or one that is
/// too high.
pub fn workers_of(matches: &ArgMatches<'_>) -> Option<u8>
    ensures value { result ≡ workers_at (rows_of (found_of matches.now)) }
    ensures range { IfSome result (λ workers. workers
        ≤ most_workers (first_of (codes "relay") (rows_of (found_of matches.now)))) }
    ensures bounded { IfSome result (λ workers. workers ≤ 16) }
{
    let most = most_workers(text_at(matches, "relay"));
    let text = text_at(matches, "workers")?;
    let workers = number_from(text.as_bytes(), 0, most)? as u8;
    Some(workers)
}
