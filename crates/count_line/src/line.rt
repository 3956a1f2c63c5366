//! A line of counts.
ghost use Rattle.std.specs.Prelude.{◌≡◌, ◌++◌, codes};
ghost use Rattle.std.specs.Fmt.{decimal};
ghost use Rattle.count_line.specs.Line.{counts_text, line_text, word_text};
ghost use Rattle.rpc_outside.specs.Writing.{Prints};

use crate::word::Word;
use itoa::Buffer;
use rpc_outside::{Failed, Sink, write_all};

/// A word, and the count behind it.
#[derive(Clone, Copy, Debug, PartialEq, Eq)]
pub struct Count {
    pub word: Word,
    pub number: u64,
}

impl Count {
    /// A word, and the count behind it.
    pub fn of(word: Word, number: u64) -> Count
        ensures { result ≡ record { word = word; number = number } }
    {
        Count { word, number }
    }
}

fn write_word<K: Sink>(sink: &mut K, word: &Word) -> Result<(), Failed>
    ensures { Prints (K.page sink.old) (K.page sink.new) result (word_text word.now) }
{
    write_all(sink, word.text().as_bytes())
}

fn write_number<K: Sink>(sink: &mut K, number: u64) -> Result<(), Failed>
    ensures { Prints (K.page sink.old) (K.page sink.new) result (decimal number) }
{
    let mut digits = Buffer::new();
    write_all(sink, digits.format(number).as_bytes())
}

fn write_count<K: Sink>(sink: &mut K, count: &Count) -> Result<(), Failed>
    ensures { Prints (K.page sink.old) (K.page sink.new) result (word_text count.now.word ++ decimal
        count.now.number) }
{
    write_word(sink, &count.word)?;
    write_number(sink, count.number)
}

fn write_each<K: Sink>(sink: &mut K, counts: &[Count]) -> Result<(), Failed>
    ensures { Prints (K.page sink.old) (K.page sink.new) result (counts_text counts.now) }
{
    for count in counts {
        write_count(sink, count)?;
    }
    Ok(())
}

/// Writes these counts, a line. It takes no memory. `Failed` comes only where the sink counts one
/// more fault; a front of the line was then written.
pub fn write_counts<K: Sink>(sink: &mut K, counts: &[Count]) -> Result<(), Failed>
    ensures { Prints (K.page sink.old) (K.page sink.new) result (line_text counts.now) }
{
    write_each(sink, counts)?;
    write_all(sink, b"\n")
}
