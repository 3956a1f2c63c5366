//! The first words of commands.
ghost use Rattle.std.specs.Prelude.{◌≡◌};
ghost use Rattle.script_grammar.specs.Commands.{verb_of};

use crate::text::is_word;

/// The first word of a command. `call` is none of them, since it alone takes memory.
#[derive(Clone, Copy)]
pub enum Verb {
    Node,
    Pair,
    Connect,
    Disconnect,
    Rate,
    Poll,
    Arrive,
    Lose,
    Repeat,
    Tick,
    Work,
    Settle,
    Restart,
}

/// The command that a word begins, if one does.
#[tactic(auto, unfolding(crate::specs::Commands::verb_of))]
pub fn verb_of(word: &[u8]) -> Option<Verb>
    ensures { result ≡ verb_of word.now }
{
    if is_word(word, b"node") {
        Some(Verb::Node)
    } else if is_word(word, b"pair") {
        Some(Verb::Pair)
    } else if is_word(word, b"connect") {
        Some(Verb::Connect)
    } else if is_word(word, b"disconnect") {
        Some(Verb::Disconnect)
    } else if is_word(word, b"rate") {
        Some(Verb::Rate)
    } else if is_word(word, b"poll") {
        Some(Verb::Poll)
    } else if is_word(word, b"arrive") {
        Some(Verb::Arrive)
    } else if is_word(word, b"lose") {
        Some(Verb::Lose)
    } else if is_word(word, b"repeat") {
        Some(Verb::Repeat)
    } else if is_word(word, b"tick") {
        Some(Verb::Tick)
    } else if is_word(word, b"work") {
        Some(Verb::Work)
    } else if is_word(word, b"settle") {
        Some(Verb::Settle)
    } else if is_word(word, b"restart") {
        Some(Verb::Restart)
    } else {
        None
    }
}
