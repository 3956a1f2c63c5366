//! Lines and words of a text, by position of their ends.
ghost use Rattle.std.specs.Prelude.{◌≡◌, ◌<◌, ◌==◌, [], ◌∷◌, length, Ok, Err, IfOk, IfErr, IfSome};
ghost use Rattle.std.specs.Prelude.{IfNone};
ghost use Rattle.std.specs.List.{position};
ghost use Rattle.script_grammar.specs.Lines.{lines_of};
ghost use Rattle.script_grammar.specs.Rest.{words_left};
ghost use Rattle.script_grammar.specs.Words.{words_of, is_word, next_word, last_word};

use crate::bad::BadWhy;
use std::marker::Model;

/// Ends a line.
const LINE_FEED: u8 = b'\n';
/// Parts two words.
const BLANK: u8 = b' ';

/// Where `mark` stands first.
fn position_of(text: &[u8], mark: u8) -> Option<usize>
    ensures position { result ≡ position (λ b. b == mark) text.now }
    ensures within { IfSome result (λ end. end < length text.now) }
{
    text.iter().position(|b| *b == mark)
}

/// The first line of a text and what stands after its line feed; None where the text has no line.
pub fn next_line(text: &[u8]) -> Option<(&[u8], &[u8])>
    ensures none { IfNone result (lines_of text.now ≡ []) }
    ensures line { IfSome result (λ p. lines_of text.now ≡ p.0.now ∷ lines_of p.1.now) }
    ensures shorter { IfSome result (λ p. length p.1.now < length text.now) }
{
    if text.is_empty() {
        return None;
    }
    match position_of(text, LINE_FEED) {
        Some(end) => Some((&text[..end], &text[end + 1..])),
        None => Some((text, &[])),
    }
}

/// Tells whether a word is `name`.
#[tactic(auto, unfolding(crate::specs::Words::is_word))]
pub fn is_word(word: &[u8], name: &[u8]) -> bool
    ensures { result ≡ is_word word.now name.now }
{
    word == name
}

/// The first word of a line, and what stands after the blank that ends it.
fn first_word(line: &[u8]) -> Result<(&[u8], Option<&[u8]>), BadWhy>
    ensures ok { IfOk result (λ p. next_word (words_of line.now) ≡ Ok (p.0.now, words_left p.1)) }
    ensures err { IfErr result (λ why. next_word (words_of line.now) ≡ Err why) }
{
    match position_of(line, BLANK) {
        None if line.is_empty() => Err(BadWhy::Shape),
        None => Ok((line, None)),
        Some(0) => Err(BadWhy::Shape),
        Some(end) => Ok((&line[..end], Some(&line[end + 1..]))),
    }
}

/// What stands after `key` in a word that no other follows. The word may not be empty.
fn only_word<'a>(word: &'a [u8], key: &[u8]) -> Result<&'a [u8], BadWhy>
    ensures ok { IfOk result (λ rest. last_word key.now (words_of word.now) ≡ Ok rest.now) }
    ensures err { IfErr result (λ why. last_word key.now (words_of word.now) ≡ Err why) }
{
    if word.is_empty() {
        return Err(BadWhy::Shape);
    }
    match position_of(word, BLANK) {
        Some(_) => Err(BadWhy::Shape),
        None if word.starts_with(key) => Ok(&word[key.len()..]),
        None => Err(BadWhy::Shape),
    }
}

/// The words of a line that are still to be read.
#[derive(Drop)]
pub struct Words<'a> {
    /// None where no word is left.
    rest: Option<&'a [u8]>,
}

impl<'a> Model for Words<'a> {
    ghost use Rattle.std.specs.Prelude.{List, ℕ};
    ghost use Rattle.script_grammar.specs.Rest.{words_left};

    ghost Value = { List (List ℕ) };

    ghost view = { λ w. words_left w.rest };
}

impl<'a> Words<'a> {
    /// The first word of a line, which may be empty, and the words after it.
    pub fn of(line: &'a [u8]) -> (&'a [u8], Words<'a>)
        ensures { words_of line.now ≡ result.0.now ∷ result.1 }
    {
        match position_of(line, BLANK) {
            None => (line, Words { rest: None }),
            Some(end) => (
                &line[..end],
                Words {
                    rest: Some(&line[end + 1..]),
                },
            ),
        }
    }

    /// Takes the next word, which has to be there and may not be empty.
    pub fn next(self) -> Result<(&'a [u8], Words<'a>), BadWhy>
        ensures ok { IfOk result (λ p. next_word self.entry ≡ Ok (p.0.now, p.1)) }
        ensures err { IfErr result (λ why. next_word self.entry ≡ Err why) }
    {
        match self.rest {
            None => Err(BadWhy::Shape),
            Some(line) => {
                let (word, rest) = first_word(line)?;
                Ok((word, Words { rest }))
            }
        }
    }

    /// What stands after `key` in the last word, which has to be there, not empty, and to begin
    /// with it.
    pub fn last(self, key: &[u8]) -> Result<&'a [u8], BadWhy>
        ensures ok { IfOk result (λ word. last_word key.now self.entry ≡ Ok word.now) }
        ensures err { IfErr result (λ why. last_word key.now self.entry ≡ Err why) }
    {
        match self.rest {
            None => Err(BadWhy::Shape),
            Some(word) => only_word(word, key),
        }
    }
}
