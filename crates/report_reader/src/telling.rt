//! The event that a line tells.
ghost use Rattle.std.specs.Prelude.{◌≡◌};
ghost use Rattle.report_reader.specs.Telling.{event_by, event_in, paired_line, nconnect_line};
ghost use Rattle.report_reader.specs.Telling.{failed_line, nclose_line, closed_line, ncall_line};
ghost use Rattle.report_reader.specs.Telling.{done_line};
ghost use Rattle.report_reader.specs.Words.{words_of};

use crate::events::{
    accepted, again, arrived, asked, bad, begun, broken, carried, closed_heard, closed_unheard,
    closing, connected, declined, done_ok, done_peer_lost, done_too_small, dropped, ended,
    failed_no_answer, failed_no_room, flushed, given, lost, made, missed, ncall_state,
    ncall_too_large, nclose_busy, nclose_state, nconnect_ring, nrate, opened, overflowed,
    paired_client, paired_server, polled, posted, ran, rated, repeated, restarted, rolled, sent,
    starved, ticked, took, unsent, worked,
};
use crate::name::{Name, name_of};
use crate::words::{is_word, word_at};
use rpc_base::Event;

#[tactic(auto, unfolding(crate::specs::Telling::paired_line))]
fn paired_line(line: &[u8]) -> Option<Event>
    ensures { result ≡ paired_line (words_of line.now) }
{
    if is_word(word_at(line, 2), b"client") {
        paired_client(line)
    } else {
        paired_server(line)
    }
}

#[tactic(auto, unfolding(crate::specs::Telling::nconnect_line))]
fn nconnect_line(line: &[u8]) -> Option<Event>
    ensures { result ≡ nconnect_line (words_of line.now) }
{
    if is_word(word_at(line, 2), b"ring") {
        nconnect_ring(line)
    } else {
        Some(Event::NconnectNumbers)
    }
}

#[tactic(auto, unfolding(crate::specs::Telling::failed_line))]
fn failed_line(line: &[u8]) -> Option<Event>
    ensures { result ≡ failed_line (words_of line.now) }
{
    if is_word(word_at(line, 3), b"noroom") {
        failed_no_room(line)
    } else {
        failed_no_answer(line)
    }
}

#[tactic(auto, unfolding(crate::specs::Telling::nclose_line))]
fn nclose_line(line: &[u8]) -> Option<Event>
    ensures { result ≡ nclose_line (words_of line.now) }
{
    if is_word(word_at(line, 3), b"busy") {
        nclose_busy(line)
    } else {
        nclose_state(line)
    }
}

#[tactic(auto, unfolding(crate::specs::Telling::closed_line))]
fn closed_line(line: &[u8]) -> Option<Event>
    ensures { result ≡ closed_line (words_of line.now) }
{
    if is_word(word_at(line, 3), b"heard") {
        closed_heard(line)
    } else {
        closed_unheard(line)
    }
}

#[tactic(auto, unfolding(crate::specs::Telling::ncall_line))]
fn ncall_line(line: &[u8]) -> Option<Event>
    ensures { result ≡ ncall_line (words_of line.now) }
{
    if is_word(word_at(line, 3), b"toolarge") {
        ncall_too_large(line)
    } else {
        ncall_state(line)
    }
}

#[tactic(auto, unfolding(crate::specs::Telling::done_line))]
fn done_line(line: &[u8]) -> Option<Event>
    ensures { result ≡ done_line (words_of line.now) }
{
    if is_word(word_at(line, 3), b"ok") {
        done_ok(line)
    } else if is_word(word_at(line, 3), b"toosmall") {
        done_too_small(line)
    } else {
        done_peer_lost(line)
    }
}

#[tactic(auto, unfolding(crate::specs::Telling::event_by))]
fn event_by(name: Name, line: &[u8]) -> Option<Event>
    ensures { result ≡ event_by name (words_of line.now) }
{
    match name {
        Name::Made => made(line),
        Name::Opened => opened(line),
        Name::Paired => paired_line(line),
        Name::Nconnect => nconnect_line(line),
        Name::Accepted => accepted(line),
        Name::Declined => declined(line),
        Name::Starved => starved(line),
        Name::Connected => connected(line),
        Name::Failed => failed_line(line),
        Name::Closing => closing(line),
        Name::Nclose => nclose_line(line),
        Name::Closed => closed_line(line),
        Name::Ended => ended(line),
        Name::Broken => broken(line),
        Name::Rated => rated(line),
        Name::Nrate => nrate(line),
        Name::Asked => asked(line),
        Name::Ncall => ncall_line(line),
        Name::Begun => begun(line),
        Name::Posted => posted(line),
        Name::Flushed => flushed(line),
        Name::Sent => sent(line),
        Name::Unsent => unsent(line),
        Name::Arrived => arrived(line),
        Name::Overflowed => overflowed(line),
        Name::Bad => bad(line),
        Name::Heard => Some(Event::Heard),
        Name::Took => took(line),
        Name::Again => again(line),
        Name::Dropped => dropped(line),
        Name::Given => given(line),
        Name::Worked => worked(line),
        Name::Ran => ran(line),
        Name::Rolled => rolled(line),
        Name::Done => done_line(line),
        Name::Polled => polled(line),
        Name::Missed => missed(line),
        Name::Carried => carried(line),
        Name::Lost => lost(line),
        Name::Repeated => repeated(line),
        Name::Ticked => ticked(line),
        Name::Restarted => restarted(line),
    }
}

/// The event that a line tells, if its first words and its numbers are ones. It looks at no bytes,
/// and not at all words: the line may be no line of that event.
#[tactic(auto, unfolding(crate::specs::Telling::event_in))]
pub fn event_in(line: &[u8]) -> Option<Event>
    ensures { result ≡ event_in (words_of line.now) }
{
    let name = name_of(word_at(line, 1))?;
    event_by(name, line)
}
