//! The first words of lines.
ghost use Rattle.std.specs.Prelude.{◌≡◌};
ghost use Rattle.report_reader.specs.Telling.{name_of, names_1, names_2, names_3, names_4};

use crate::words::is_word;

/// What the line of an event begins with.
#[derive(Clone, Copy)]
pub enum Name {
    Made,
    Opened,
    Paired,
    Nconnect,
    Accepted,
    Declined,
    Starved,
    Connected,
    Failed,
    Closing,
    Nclose,
    Closed,
    Ended,
    Broken,
    Rated,
    Nrate,
    Asked,
    Ncall,
    Begun,
    Posted,
    Flushed,
    Sent,
    Unsent,
    Arrived,
    Overflowed,
    Bad,
    Heard,
    Took,
    Again,
    Dropped,
    Given,
    Worked,
    Ran,
    Rolled,
    Done,
    Polled,
    Missed,
    Carried,
    Lost,
    Repeated,
    Ticked,
    Restarted,
}

#[tactic(auto, unfolding(crate::specs::Telling::names_4))]
fn names_4(word: &[u8]) -> Option<Name>
    ensures { result ≡ names_4 word.now }
{
    if is_word(word, b"worked") {
        Some(Name::Worked)
    } else if is_word(word, b"ran") {
        Some(Name::Ran)
    } else if is_word(word, b"rolled") {
        Some(Name::Rolled)
    } else if is_word(word, b"done") {
        Some(Name::Done)
    } else if is_word(word, b"polled") {
        Some(Name::Polled)
    } else if is_word(word, b"missed") {
        Some(Name::Missed)
    } else if is_word(word, b"carried") {
        Some(Name::Carried)
    } else if is_word(word, b"lost") {
        Some(Name::Lost)
    } else if is_word(word, b"repeated") {
        Some(Name::Repeated)
    } else if is_word(word, b"ticked") {
        Some(Name::Ticked)
    } else if is_word(word, b"restarted") {
        Some(Name::Restarted)
    } else {
        None
    }
}

#[tactic(auto, unfolding(crate::specs::Telling::names_3))]
fn names_3(word: &[u8]) -> Option<Name>
    ensures { result ≡ names_3 word.now }
{
    if is_word(word, b"flushed") {
        Some(Name::Flushed)
    } else if is_word(word, b"sent") {
        Some(Name::Sent)
    } else if is_word(word, b"unsent") {
        Some(Name::Unsent)
    } else if is_word(word, b"arrived") {
        Some(Name::Arrived)
    } else if is_word(word, b"overflowed") {
        Some(Name::Overflowed)
    } else if is_word(word, b"bad") {
        Some(Name::Bad)
    } else if is_word(word, b"heard") {
        Some(Name::Heard)
    } else if is_word(word, b"took") {
        Some(Name::Took)
    } else if is_word(word, b"again") {
        Some(Name::Again)
    } else if is_word(word, b"dropped") {
        Some(Name::Dropped)
    } else if is_word(word, b"given") {
        Some(Name::Given)
    } else {
        names_4(word)
    }
}

#[tactic(auto, unfolding(crate::specs::Telling::names_2))]
fn names_2(word: &[u8]) -> Option<Name>
    ensures { result ≡ names_2 word.now }
{
    if is_word(word, b"nclose") {
        Some(Name::Nclose)
    } else if is_word(word, b"closed") {
        Some(Name::Closed)
    } else if is_word(word, b"ended") {
        Some(Name::Ended)
    } else if is_word(word, b"broken") {
        Some(Name::Broken)
    } else if is_word(word, b"rated") {
        Some(Name::Rated)
    } else if is_word(word, b"nrate") {
        Some(Name::Nrate)
    } else if is_word(word, b"asked") {
        Some(Name::Asked)
    } else if is_word(word, b"ncall") {
        Some(Name::Ncall)
    } else if is_word(word, b"begun") {
        Some(Name::Begun)
    } else if is_word(word, b"posted") {
        Some(Name::Posted)
    } else {
        names_3(word)
    }
}

#[tactic(auto, unfolding(crate::specs::Telling::names_1))]
fn names_1(word: &[u8]) -> Option<Name>
    ensures { result ≡ names_1 word.now }
{
    if is_word(word, b"made") {
        Some(Name::Made)
    } else if is_word(word, b"opened") {
        Some(Name::Opened)
    } else if is_word(word, b"paired") {
        Some(Name::Paired)
    } else if is_word(word, b"nconnect") {
        Some(Name::Nconnect)
    } else if is_word(word, b"accepted") {
        Some(Name::Accepted)
    } else if is_word(word, b"declined") {
        Some(Name::Declined)
    } else if is_word(word, b"starved") {
        Some(Name::Starved)
    } else if is_word(word, b"connected") {
        Some(Name::Connected)
    } else if is_word(word, b"failed") {
        Some(Name::Failed)
    } else if is_word(word, b"closing") {
        Some(Name::Closing)
    } else {
        names_2(word)
    }
}

/// The name that a word is, if it is one.
#[tactic(auto, unfolding(crate::specs::Telling::name_of))]
pub fn name_of(word: &[u8]) -> Option<Name>
    ensures { result ≡ name_of word.now }
{
    names_1(word)
}
