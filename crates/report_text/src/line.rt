//! The line of one fact.
ghost use Rattle.std.specs.Prelude.{◌++◌, codes};
ghost use Rattle.report_text.specs.Names.{bytes_text};
ghost use Rattle.report_text.specs.Page.{Fills};
ghost use Rattle.report_text.specs.Shape.{shape_text};
ghost use Rattle.report_text.specs.Text.{who_text, event_text, line_text};

use crate::events::{shape_for, tail_for};
use crate::octets::put_more_bytes;
use crate::page::Page;
use crate::pieces::{
    put_datagram, put_ending, put_entry, put_five, put_four, put_last, put_number, put_pair,
    put_reason, put_state, put_three, put_two, put_word,
};
use crate::shape::{Shape, Tail};
use rpc_base::{Fact, Who};
use rpc_outside::{Failed, Sink};

/// Puts the words and numbers of a line.
fn put_shape<K: Sink>(sink: &mut K, page: &mut Page, shape: &Shape) -> Result<(), Failed>
    ensures { Fills K.page sink.old sink.new page.old page.new result
        (shape_text shape.now) }
{
    match shape {
        Shape::Word(word) => put_word(sink, page, word),
        Shape::One(a) => put_pair(sink, page, a),
        Shape::Two(a, b) => put_two(sink, page, a, b),
        Shape::Three(a, b, c) => put_three(sink, page, a, b, c),
        Shape::Four(a, b, c, d) => put_four(sink, page, a, b, c, d),
        Shape::Five(a, b, c, d, e) => put_five(sink, page, a, b, c, d, e),
        Shape::Ending(a, word) => put_ending(sink, page, a, word),
        Shape::State(a, state) => put_state(sink, page, a, *state),
        Shape::Reason(reason) => put_reason(sink, page, *reason),
        Shape::Entry(word, owner, number) => put_entry(sink, page, word, *owner, *number),
        Shape::Datagram(peer, owner, number) => put_datagram(sink, page, *peer, *owner, *number),
    }
}

/// Puts the words and numbers of a line, and bytes after them.
fn put_shape_bytes<K: Sink>(
    sink: &mut K,
    page: &mut Page,
    shape: &Shape,
    bytes: &[u8],
) -> Result<(), Failed>
    ensures { Fills K.page sink.old sink.new page.old page.new result
        (shape_text shape.now ++ codes " " ++ bytes_text bytes.now) }
{
    put_shape(sink, page, shape)?;
    put_more_bytes(sink, page, bytes)
}

/// Puts the words and numbers of a line, and two times bytes after them.
fn put_shape_both<K: Sink>(
    sink: &mut K,
    page: &mut Page,
    shape: &Shape,
    first: &[u8],
    second: &[u8],
) -> Result<(), Failed>
    ensures { Fills K.page sink.old sink.new page.old page.new result
        (shape_text shape.now ++ codes " " ++ bytes_text first.now
        ++ codes " " ++ bytes_text second.now) }
{
    put_shape_bytes(sink, page, shape, first)?;
    put_more_bytes(sink, page, second)
}

/// Puts what happened.
fn put_event<K: Sink>(sink: &mut K, page: &mut Page, fact: &Fact) -> Result<(), Failed>
    ensures { Fills K.page sink.old sink.new page.old page.new result
        (event_text fact.now.event fact.now.first fact.now.second) }
{
    let shape = shape_for(fact.event);
    match tail_for(fact.event) {
        Tail::Nothing => put_shape(sink, page, &shape),
        Tail::First => put_shape_bytes(sink, page, &shape, fact.first.bytes()),
        Tail::Both => put_shape_both(sink, page, &shape, fact.first.bytes(), fact.second.bytes()),
    }
}

/// Puts where it happened.
fn put_who<K: Sink>(sink: &mut K, page: &mut Page, who: Who) -> Result<(), Failed>
    ensures { Fills K.page sink.old sink.new page.old page.new result (who_text who) }
{
    match who {
        Who::Node(node) => put_number(sink, page, u64::from(node.0)),
        Who::Net => put_word(sink, page, "net"),
    }
}

/// Puts where it happened and a space.
fn put_head<K: Sink>(sink: &mut K, page: &mut Page, who: Who) -> Result<(), Failed>
    ensures { Fills K.page sink.old sink.new page.old page.new result
        (who_text who ++ codes " ") }
{
    put_who(sink, page, who)?;
    put_word(sink, page, " ")
}

/// Puts a line without its line feed.
pub fn put_fact<K: Sink>(sink: &mut K, page: &mut Page, fact: &Fact) -> Result<(), Failed>
    ensures { Fills K.page sink.old sink.new page.old page.new result
        (who_text fact.now.who ++ codes " "
        ++ event_text fact.now.event fact.now.first fact.now.second) }
{
    put_head(sink, page, fact.who)?;
    put_event(sink, page, fact)
}

/// Puts the line of a fact.
pub fn put_line<K: Sink>(sink: &mut K, page: &mut Page, fact: &Fact) -> Result<(), Failed>
    ensures { Fills K.page sink.old sink.new page.old page.new result
        (line_text fact.now) }
{
    put_fact(sink, page, fact)?;
    put_last(sink, page, "\n")
}
