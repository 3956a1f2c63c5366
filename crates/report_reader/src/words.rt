//! The words of a line, and what a word tells that is no number.
ghost use Rattle.std.specs.Prelude.{◌≡◌, ◌<◌, ◌==◌, length, IfSome};
ghost use Rattle.std.specs.List.{position};
ghost use Rattle.report_reader.specs.Words.{is_word, reason_named, reason_at, state_named};
ghost use Rattle.report_reader.specs.Words.{state_at};
ghost use Rattle.report_reader.specs.Words.{word, words_of};

use rpc_base::{DropReason, SessionState};

/// Parts two words.
const BLANK: u8 = b' ';

// Where the first blank stands.
fn first_blank(line: &[u8]) -> Option<usize>
    ensures position { result ≡ position (λ b. b == 32) line.now }
    ensures within { IfSome result (λ end. end < length line.now) }
{
    line.iter().position(|b| *b == BLANK)
}

/// Word `i` of a line, counted from 0. It has no bytes where the line has fewer words.
pub fn word_at(line: &[u8], i: usize) -> &[u8]
    ensures { result.now ≡ word i (words_of line.now) }
{
    match first_blank(line) {
        None => { if i == 0 { line } else { &[] } }
        Some(end) => {
            if i == 0 {
                &line[..end]
            } else {
                word_at(&line[end + 1..], i - 1)
            }
        }
    }
}

/// Tells whether a word is `name`.
#[tactic(auto, unfolding(crate::specs::Words::is_word))]
pub fn is_word(word: &[u8], name: &[u8]) -> bool
    ensures { result ≡ is_word word.now name.now }
{
    word == name
}

#[tactic(auto, unfolding(crate::specs::Words::state_named))]
fn state_named(word: &[u8]) -> Option<SessionState>
    ensures { result ≡ state_named word.now }
{
    if is_word(word, b"unknown") {
        Some(SessionState::Unknown)
    } else if is_word(word, b"connecting") {
        Some(SessionState::Connecting)
    } else if is_word(word, b"connected") {
        Some(SessionState::Connected)
    } else if is_word(word, b"closing") {
        Some(SessionState::Closing)
    } else if is_word(word, b"closed") {
        Some(SessionState::Closed)
    } else if is_word(word, b"failed") {
        Some(SessionState::Failed)
    } else if is_word(word, b"broken") {
        Some(SessionState::Broken)
    } else if is_word(word, b"spent") {
        Some(SessionState::Spent)
    } else {
        None
    }
}

/// The state that word `i` names, if it names one.
pub fn state_at(line: &[u8], i: usize) -> Option<SessionState>
    ensures { result ≡ state_at i (words_of line.now) }
{
    state_named(word_at(line, i))
}

#[tactic(auto, unfolding(crate::specs::Words::reason_named))]
fn reason_named(word: &[u8]) -> Option<DropReason>
    ensures { result ≡ reason_named word.now }
{
    if is_word(word, b"stalelife") {
        Some(DropReason::StaleLife)
    } else if is_word(word, b"nosession") {
        Some(DropReason::NoSession)
    } else if is_word(word, b"wrongpeer") {
        Some(DropReason::WrongPeer)
    } else if is_word(word, b"old") {
        Some(DropReason::Old)
    } else if is_word(word, b"notfirst") {
        Some(DropReason::NotFirst)
    } else if is_word(word, b"working") {
        Some(DropReason::Working)
    } else if is_word(word, b"unserved") {
        Some(DropReason::Unserved)
    } else if is_word(word, b"jobsfull") {
        Some(DropReason::JobsFull)
    } else if is_word(word, b"nomemory") {
        Some(DropReason::NoMemory)
    } else if is_word(word, b"mismatch") {
        Some(DropReason::Mismatch)
    } else if is_word(word, b"ahead") {
        Some(DropReason::Ahead)
    } else if is_word(word, b"beyond") {
        Some(DropReason::Beyond)
    } else if is_word(word, b"nocall") {
        Some(DropReason::NoCall)
    } else if is_word(word, b"past") {
        Some(DropReason::Past)
    } else if is_word(word, b"queued") {
        Some(DropReason::Queued)
    } else {
        None
    }
}

/// The reason that word `i` names, if it names one.
pub fn reason_at(line: &[u8], i: usize) -> Option<DropReason>
    ensures { result ≡ reason_at i (words_of line.now) }
{
    reason_named(word_at(line, i))
}
