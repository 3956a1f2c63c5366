//! Words, numbers and their pairs, put one after another on a page.
ghost use Rattle.std.specs.Prelude.{◌<◌, ◌++◌, codes, decimal};
ghost use Rattle.report_text.specs.Names.{owner_text, state_text, reason_text};
ghost use Rattle.report_text.specs.Page.{Fills};

use crate::names::{reason_word, state_word};
use crate::page::{Page, flush, put};
use crate::shape::Pair;
use itoa::Buffer;
use rpc_base::{DropReason, Owner, SessionState};
use rpc_outside::{Failed, Sink};

/// The least number of two digits.
const TWO_DIGITS: u64 = 10;

/// Puts a word.
pub fn put_word<K: Sink>(sink: &mut K, page: &mut Page, word: &str) -> Result<(), Failed>
    ensures { Fills K.page sink.old sink.new page.old page.new result (word.now) }
{
    put(sink, page, word.as_bytes())
}

/// Puts the last word of a line, and passes the line on to the sink.
pub fn put_last<K: Sink>(sink: &mut K, page: &mut Page, word: &str) -> Result<(), Failed>
    ensures { Fills K.page sink.old sink.new page.old page.new result (word.now) }
{
    put_word(sink, page, word)?;
    flush(sink, page)?;
    Ok(())
}

// Puts a number of one digit, as most numbers of a report are.
#[tactic(auto, using(std::proofs::lemmas::Fmt::decimal_digit))]
fn put_digit<K: Sink>(sink: &mut K, page: &mut Page, number: u64) -> Result<(), Failed>
    requires { number < 10 }
    ensures { Fills K.page sink.old sink.new page.old page.new result (decimal number) }
{
    put(sink, page, &[b'0' + number as u8])
}

// Puts a number of any digits.
fn put_long<K: Sink>(sink: &mut K, page: &mut Page, number: u64) -> Result<(), Failed>
    ensures { Fills K.page sink.old sink.new page.old page.new result (decimal number) }
{
    let mut digits = Buffer::new();
    put(sink, page, digits.format(number).as_bytes())
}

/// Puts a number in decimal.
pub fn put_number<K: Sink>(sink: &mut K, page: &mut Page, number: u64) -> Result<(), Failed>
    ensures { Fills K.page sink.old sink.new page.old page.new result (decimal number) }
{
    if number < TWO_DIGITS {
        return put_digit(sink, page, number);
    }
    put_long(sink, page, number)
}

/// Puts a word and a number.
pub fn put_pair<K: Sink>(sink: &mut K, page: &mut Page, pair: &Pair) -> Result<(), Failed>
    ensures { Fills K.page sink.old sink.new page.old page.new result
        (pair.now.0.now ++ decimal pair.now.1) }
{
    put_word(sink, page, pair.0)?;
    put_number(sink, page, pair.1)
}

/// Puts two words and numbers.
pub fn put_two<K: Sink>(sink: &mut K, page: &mut Page, a: &Pair, b: &Pair) -> Result<(), Failed>
    ensures { Fills K.page sink.old sink.new page.old page.new result
        (a.now.0.now ++ decimal a.now.1 ++ b.now.0.now ++ decimal b.now.1) }
{
    put_pair(sink, page, a)?;
    put_pair(sink, page, b)
}

/// Puts three words and numbers.
pub fn put_three<K: Sink>(
    sink: &mut K,
    page: &mut Page,
    a: &Pair,
    b: &Pair,
    c: &Pair,
) -> Result<(), Failed>
    ensures { Fills K.page sink.old sink.new page.old page.new result
        (a.now.0.now ++ decimal a.now.1 ++ b.now.0.now ++ decimal b.now.1
        ++ c.now.0.now ++ decimal c.now.1) }
{
    put_two(sink, page, a, b)?;
    put_pair(sink, page, c)
}

/// Puts four words and numbers.
pub fn put_four<K: Sink>(
    sink: &mut K,
    page: &mut Page,
    a: &Pair,
    b: &Pair,
    c: &Pair,
    d: &Pair,
) -> Result<(), Failed>
    ensures { Fills K.page sink.old sink.new page.old page.new result
        (a.now.0.now ++ decimal a.now.1 ++ b.now.0.now ++ decimal b.now.1
        ++ c.now.0.now ++ decimal c.now.1 ++ d.now.0.now ++ decimal d.now.1) }
{
    put_three(sink, page, a, b, c)?;
    put_pair(sink, page, d)
}

/// Puts five words and numbers.
pub fn put_five<K: Sink>(
    sink: &mut K,
    page: &mut Page,
    a: &Pair,
    b: &Pair,
    c: &Pair,
    d: &Pair,
    e: &Pair,
) -> Result<(), Failed>
    ensures { Fills K.page sink.old sink.new page.old page.new result
        (a.now.0.now ++ decimal a.now.1 ++ b.now.0.now ++ decimal b.now.1
        ++ c.now.0.now ++ decimal c.now.1 ++ d.now.0.now ++ decimal d.now.1
        ++ e.now.0.now ++ decimal e.now.1) }
{
    put_four(sink, page, a, b, c, d)?;
    put_pair(sink, page, e)
}

/// Puts a word, a number and a word.
pub fn put_ending<K: Sink>(
    sink: &mut K,
    page: &mut Page,
    pair: &Pair,
    word: &str,
) -> Result<(), Failed>
    ensures { Fills K.page sink.old sink.new page.old page.new result
        (pair.now.0.now ++ decimal pair.now.1 ++ word.now) }
{
    put_pair(sink, page, pair)?;
    put_word(sink, page, word)
}

/// Puts a word, a number and the state of a session.
pub fn put_state<K: Sink>(
    sink: &mut K,
    page: &mut Page,
    pair: &Pair,
    state: SessionState,
) -> Result<(), Failed>
    ensures { Fills K.page sink.old sink.new page.old page.new result
        (pair.now.0.now ++ decimal pair.now.1 ++ codes " " ++ state_text state) }
{
    put_ending(sink, page, pair, " ")?;
    put_word(sink, page, state_word(state))
}

/// Puts why a packet was dropped.
pub fn put_reason<K: Sink>(sink: &mut K, page: &mut Page, reason: DropReason) -> Result<(), Failed>
    ensures { Fills K.page sink.old sink.new page.old page.new result
        (codes "dropped " ++ reason_text reason) }
{
    put_word(sink, page, "dropped ")?;
    put_word(sink, page, reason_word(reason))
}

/// Puts whose packet an entry is.
pub fn put_owner<K: Sink>(sink: &mut K, page: &mut Page, owner: Owner) -> Result<(), Failed>
    ensures { Fills K.page sink.old sink.new page.old page.new result
        (owner_text owner) }
{
    match owner {
        Owner::Ask { session, request } => put_two(
            sink,
            page,
            &("c ", u64::from(session.0)),
            &(" ", request.get()),
        ),
        Owner::Reply { session, request } => put_two(
            sink,
            page,
            &("s ", u64::from(session.0)),
            &(" ", request.get()),
        ),
        Owner::Control => put_word(sink, page, "k 0 0"),
    }
}

/// Puts a word and whose packet an entry is.
fn put_owned<K: Sink>(sink: &mut K, page: &mut Page, word: &str, owner: Owner) -> Result<(), Failed>
    ensures { Fills K.page sink.old sink.new page.old page.new result
        (word.now ++ owner_text owner) }
{
    put_word(sink, page, word)?;
    put_owner(sink, page, owner)
}

/// Puts an entry of a queue: a word, whose packet it is, and its number.
pub fn put_entry<K: Sink>(
    sink: &mut K,
    page: &mut Page,
    word: &str,
    owner: Owner,
    number: u64,
) -> Result<(), Failed>
    ensures { Fills K.page sink.old sink.new page.old page.new result
        (word.now ++ owner_text owner ++ codes " " ++ decimal number) }
{
    put_owned(sink, page, word, owner)?;
    put_pair(sink, page, &(" ", number))
}

/// Puts to whom a datagram goes, and whose packet it is.
fn put_sent<K: Sink>(sink: &mut K, page: &mut Page, peer: u64, owner: Owner) -> Result<(), Failed>
    ensures { Fills K.page sink.old sink.new page.old page.new result
        (codes "sent " ++ decimal peer ++ codes " " ++ owner_text owner) }
{
    put_ending(sink, page, &("sent ", peer), " ")?;
    put_owner(sink, page, owner)
}

/// Puts a datagram: to whom it goes, whose packet it is, and its number.
pub fn put_datagram<K: Sink>(
    sink: &mut K,
    page: &mut Page,
    peer: u64,
    owner: Owner,
    number: u64,
) -> Result<(), Failed>
    ensures { Fills K.page sink.old sink.new page.old page.new result
        (codes "sent " ++ decimal peer ++ codes " " ++ owner_text owner
        ++ codes " " ++ decimal number) }
{
    put_sent(sink, page, peer, owner)?;
    put_pair(sink, page, &(" ", number))
}
