//! A source and a sink over the readers and writers of std. They tell what those tell of content:
//! of standard input and standard output, nothing.
ghost use Rattle.std.specs.Prelude.{◌≡◌};

use crate::failed::Failed;
use crate::sink::Sink;
use crate::source::Source;
use std::io::{Read, Write};

/// A source over a reader of std, as standard input. It counts how often that failed.
#[derive(Debug, Drop)]
pub struct IoSource<R> {
    reader: R,
    faults: u64,
}

impl<R> IoSource<R> {
    /// A source over this reader, which didn't fail yet.
    pub fn new(reader: R) -> IoSource<R>
        ensures reader { result.reader ≡ reader }
        ensures faults { result.faults ≡ 0 }
    {
        IoSource { reader, faults: 0 }
    }
}

impl<R: Read> Source for IoSource<R> {
    ghost input = { λ s. record { left = R.remaining s.reader; faults = s.faults } };

    fn read(&mut self, out: &mut [u8]) -> Result<usize, Failed> {
        match self.reader.read(out) {
            Ok(count) => Ok(count),
            Err(_) => {
                self.faults = self.faults.saturating_add(1);
                Err(Failed)
            }
        }
    }
}

/// A sink over a writer of std, as standard output. It counts how often that failed.
#[derive(Debug, Drop)]
pub struct IoSink<W> {
    writer: W,
    faults: u64,
}

impl<W> IoSink<W> {
    /// A sink over this writer, which didn't fail yet.
    pub fn new(writer: W) -> IoSink<W>
        ensures writer { result.writer ≡ writer }
        ensures faults { result.faults ≡ 0 }
    {
        IoSink { writer, faults: 0 }
    }

    /// Gives the writer back, to be flushed after the last write: it may hold bytes back until
    /// then.
    pub fn into_writer(self) -> W
        ensures { result ≡ self.writer }
    {
        let IoSink { writer, faults: _ } = self;
        writer
    }
}

impl<W: Write> Sink for IoSink<W> {
    ghost page = { λ s. record { written = W.contents s.writer; faults = s.faults } };

    fn write(&mut self, piece: &[u8]) -> Result<usize, Failed> {
        match self.writer.write(piece) {
            Ok(count) if count > 0 || piece.is_empty() => Ok(count),
            _ => {
                self.faults = self.faults.saturating_add(1);
                Err(Failed)
            }
        }
    }
}
