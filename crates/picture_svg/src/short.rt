//! Bytes in a few characters, and text that SVG doesn't read as its own.
use std::fmt;

/// The longest text that is shown itself.
const MOST_SHOWN: usize = 8;

/// The most bytes whose digits are shown.
const MOST_DIGITS: usize = 2;

/// Bytes of a message: short text in quotes, a few bytes in hexadecimal digits, else how many.
#[derive(Drop)]
pub struct Short<'a>(pub &'a [u8]);

#[derive(Drop)]
struct Escaped<'a>(&'a [u8]);

impl fmt::Display for Escaped<'_> {
    fn fmt<W: fmt::Write>(&self, f: &mut fmt::Formatter<W>) -> fmt::Result {
        for byte in self.0 {
            match byte {
                b'&' => f.write_str("&amp;")?,
                b'<' => f.write_str("&lt;")?,
                b'>' => f.write_str("&gt;")?,
                b'"' => f.write_str("&quot;")?,
                _ => f.write_char(char::from(*byte))?,
            }
        }
        Ok(())
    }
}

// Printable characters of ASCII.
fn is_text(bytes: &[u8]) -> bool {
    bytes.iter().all(|byte| *byte >= b' ' && *byte <= b'~')
}

impl fmt::Display for Short<'_> {
    fn fmt<W: fmt::Write>(&self, f: &mut fmt::Formatter<W>) -> fmt::Result {
        let bytes = self.0;
        if bytes.is_empty() {
            return f.write_str("no bytes");
        }
        if bytes.len() <= MOST_SHOWN && is_text(bytes) {
            let text = Escaped(bytes);
            return write!(f, "&quot;{text}&quot;");
        }
        if bytes.len() > MOST_DIGITS {
            return write!(f, "{} bytes", bytes.len());
        }
        f.write_str("0x")?;
        for byte in bytes {
            write!(f, "{byte:02x}")?;
        }
        Ok(())
    }
}
