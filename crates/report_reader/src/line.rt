//! The reader of lines.
ghost use Rattle.std.specs.Prelude.{◌≡◌, true, false, IfOk, OnOk};
ghost use Rattle.memory_count.specs.Faults.{HasCause};
ghost use Rattle.report_reader.specs.Lines.{bare_line};
ghost use Rattle.report_text.specs.Shape.{tail_of};
ghost use Rattle.report_reader.specs.Facts.{fact_in, place_of, Reads, shown, who_in};
ghost use Rattle.report_reader.specs.Reading.{ReadsNext};
ghost use Rattle.report_reader.specs.Words.{words_of};

use crate::numbers::small_at;
use crate::octets::{Shown, first_in, second_in};
use crate::ranges::in_range;
use crate::telling::event_in;
use crate::text::Text;
use crate::words::{is_word, word_at};
use memory_count::{Memory, NoMemory};
use report_text::{Page, print_fact};
use rpc_base::{Event, Fact, NodeId, Who};
use std::alloc::Global;

// Where it happened.
#[tactic(auto, unfolding(crate::specs::Facts::who_in))]
fn who_in(line: &[u8]) -> Option<Who>
    ensures { result ≡ who_in (words_of line.now) }
{
    if is_word(word_at(line, 0), b"net") {
        return Some(Who::Net);
    }
    match small_at(line, 0) {
        None => None,
        Some(number) => Some(Who::Node(NodeId(number))),
    }
}

// Which words have the bytes of an event.
fn shown_by(event: &Event) -> Shown
    ensures { result ≡ shown (tail_of event.now) (place_of event.now) }
{
    match event {
        Event::Asked { .. } => Shown::OneWord(9),
        Event::Unsent { .. }
        | Event::Arrived { .. }
        | Event::Overflowed { .. }
        | Event::Bad { .. } => Shown::OneWord(3),
        Event::DoneOk { .. } => Shown::OneWord(4),
        Event::Sent { .. } => Shown::TwoWords(7, 8),
        Event::Ran { .. } => Shown::TwoWords(6, 7),
        Event::Made { .. }
        | Event::Opened { .. }
        | Event::PairedClient { .. }
        | Event::PairedServer { .. }
        | Event::NconnectRing { .. }
        | Event::NconnectNumbers
        | Event::Accepted { .. }
        | Event::Declined { .. }
        | Event::Starved { .. }
        | Event::Connected { .. }
        | Event::FailedNoRoom { .. }
        | Event::FailedNoAnswer { .. }
        | Event::Closing { .. }
        | Event::NcloseState { .. }
        | Event::NcloseBusy { .. }
        | Event::ClosedHeard { .. }
        | Event::ClosedUnheard { .. }
        | Event::Ended { .. }
        | Event::Broken { .. }
        | Event::Rated { .. }
        | Event::Nrate { .. }
        | Event::NcallTooLarge { .. }
        | Event::NcallState { .. }
        | Event::Begun { .. }
        | Event::Posted { .. }
        | Event::Flushed { .. }
        | Event::Heard
        | Event::Took { .. }
        | Event::Again { .. }
        | Event::Dropped { .. }
        | Event::Given { .. }
        | Event::Worked { .. }
        | Event::Rolled { .. }
        | Event::DoneTooSmall { .. }
        | Event::DonePeerLost { .. }
        | Event::Polled { .. }
        | Event::Missed { .. }
        | Event::Carried { .. }
        | Event::Lost { .. }
        | Event::Repeated { .. }
        | Event::Ticked { .. }
        | Event::Restarted { .. } => Shown::NoWord,
    }
}

// The fact that the words of a line tell, if they do. The line may be no line of that fact.
#[tactic(auto, unfolding(crate::specs::Facts::fact_in))]
fn fact_in(memory: &mut Memory, line: &[u8]) -> Result<Option<Fact>, NoMemory>
    ensures value { IfOk result (λ o. o ≡ fact_in (words_of line.now)) }
    ensures cause { HasCause memory.old memory.new result }
{
    let Some(who) = who_in(line) else {
        return Ok(None);
    };
    let Some(event) = event_in(line) else {
        return Ok(None);
    };
    let shown = shown_by(&event);
    let Some(first) = first_in(memory, shown, line)? else {
        return Ok(None);
    };
    let Some(second) = second_in(memory, shown, line)? else {
        return Ok(None);
    };
    Ok(Some(Fact {
        who,
        event,
        first,
        second,
    }))
}

/// A reader of lines. It has the room in which the line of a fact is printed, so that many lines
/// take it once.
#[derive(Drop)]
pub struct LineReader {
    page: Page,
    text: Text,
}

impl LineReader {
    /// A reader of lines. Takes no memory yet.
    pub fn new(alloc: Global) -> LineReader {
        LineReader {
            page: Page::new(),
            text: Text::new(alloc),
        }
    }

    // Prints the line of a fact, without its line feed, as all that the text then holds.
    fn print(&mut self, memory: &mut Memory, fact: &Fact) -> Result<(), NoMemory>
        ensures bytes { OnOk result (self.new.text.bytes.items ≡ bare_line fact.now) }
        ensures cause { HasCause memory.old memory.new result }
    {
        self.text.clear();
        match print_fact(fact, &mut self.page, &mut self.text) {
            Ok(()) => Ok(()),
            Err(_) => {
                memory.add(self.text.memory());
                Err(NoMemory)
            }
        }
    }

    // Whether a line is that of a fact.
    fn is_line(&mut self, memory: &mut Memory, fact: &Fact, line: &[u8]) -> Result<bool, NoMemory>
        ensures yes { IfOk result (λ same. same ≡ true → bare_line fact.now ≡ line.now) }
        ensures no { IfOk result (λ same. same ≡ false → bare_line fact.now ≡ line.now → ⊥) }
        ensures cause { HasCause memory.old memory.new result }
    {
        self.print(memory, fact)?;
        Ok(is_word(self.text.bytes(), line))
    }

    /// Reads a line of a report, which has no line feed: the fact whose line it is, or None where
    /// it is the line of no fact. `NoMemory` comes only where memory for the bytes of the line was
    /// refused.
    pub fn read_line(&mut self, memory: &mut Memory, line: &[u8]) -> Result<Option<Fact>, NoMemory>
        ensures reads { IfOk result (Reads line.now) }
        ensures cause { HasCause memory.old memory.new result }
    {
        let Some(fact) = fact_in(memory, line)? else {
            return Ok(None);
        };
        if self.is_line(memory, &fact, line)? {
            Ok(Some(fact))
        } else {
            Ok(None)
        }
    }

    /// Reads a line below the first one as a fact. `None` comes exactly where it is that of no
    /// fact, and `NoMemory` only where memory for the bytes of the line was refused.
    pub fn read_fact(&mut self, memory: &mut Memory, line: &[u8]) -> Result<Option<Fact>, NoMemory>
        ensures reads { IfOk result (ReadsNext line.now) }
        ensures cause { HasCause memory.old memory.new result }
    {
        let fact = self.read_line(memory, line)?;
        if let Some(fact) = &fact {
            in_range(fact);
        }
        Ok(fact)
    }
}

/// Reads a line of a report, which has no line feed: the fact whose line it is, or None where it is
/// the line of no fact. `NoMemory` comes only where memory for the bytes of the line was refused.
pub fn read_line(memory: &mut Memory, line: &[u8]) -> Result<Option<Fact>, NoMemory>
    ensures reads { IfOk result (Reads line.now) }
    ensures cause { HasCause memory.old memory.new result }
{
    LineReader::new(memory.alloc()).read_line(memory, line)
}
