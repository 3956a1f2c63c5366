//! A word of a script on a terminal.
use std::fmt;

/// No more bytes of a word are shown.
const MOST_SHOWN: usize = 40;

/// A word, cut where it is long. A byte that is no visible ASCII character is shown as a question
/// mark, so that no script can steer a terminal; which byte that is comes after the word.
#[derive(Clone, Copy)]
pub struct Shown<'a>(pub &'a [u8]);

fn is_visible(byte: u8) -> bool {
    byte.is_ascii_graphic() || byte == b' '
}

fn visible(byte: u8) -> char {
    if is_visible(byte) {
        char::from(byte)
    } else {
        '?'
    }
}

impl<'a> Shown<'a> {
    /// The bytes that are shown.
    fn front(&self) -> &'a [u8] {
        let count = self.0.len().min(MOST_SHOWN);
        &self.0[..count]
    }

    // The byte that each question mark stands for, where it is the same.
    fn fmt_hidden<W: fmt::Write>(&self, hidden: u8, f: &mut fmt::Formatter<W>) -> fmt::Result {
        let same = self
            .front()
            .iter()
            .all(|byte| is_visible(*byte) || *byte == hidden);
        if same {
            write!(f, " (? stands for byte {hidden})")
        } else {
            f.write_str(" (each ? stands for a byte that is not visible)")
        }
    }
}

impl<'a> fmt::Display for Shown<'a> {
    fn fmt<W: fmt::Write>(&self, f: &mut fmt::Formatter<W>) -> fmt::Result {
        for byte in self.front() {
            f.write_char(visible(*byte))?;
        }
        if self.0.len() > MOST_SHOWN {
            f.write_str("..")?;
        }
        match self.front().iter().copied().find(|byte| !is_visible(*byte)) {
            Some(hidden) => self.fmt_hidden(hidden, f),
            None => Ok(()),
        }
    }
}
