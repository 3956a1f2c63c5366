//! Bytes in lower-case hexadecimal.
ghost use Rattle.std.specs.Prelude.{◌++◌, codes, flat_map};
ghost use Rattle.report_text.specs.Names.{byte_text, bytes_text};
ghost use Rattle.report_text.specs.Page.{Fills};

use crate::page::{Page, put_part};
use crate::pieces::put_word;
use rpc_outside::{Failed, Sink};

/// Bytes whose digits are put in one go, as many as a packet carries.
const PART: usize = 1024;

/// Puts two digits for each byte.
fn put_digits<K: Sink>(sink: &mut K, page: &mut Page, bytes: &[u8]) -> Result<(), Failed>
    ensures { Fills K.page sink.old sink.new page.old page.new result
        (flat_map byte_text bytes.now) }
{
    let mut rest = bytes;
    while !rest.is_empty() {
        let count = rest.len().min(PART);
        put_part(sink, page, &rest[..count])?;
        rest = &rest[count..];
    }
    Ok(())
}

/// Puts bytes, or a dash for no bytes.
fn put_bytes<K: Sink>(sink: &mut K, page: &mut Page, bytes: &[u8]) -> Result<(), Failed>
    ensures { Fills K.page sink.old sink.new page.old page.new result
        (bytes_text bytes.now) }
{
    if bytes.is_empty() {
        put_word(sink, page, "-")
    } else {
        put_digits(sink, page, bytes)
    }
}

/// Puts a space and bytes.
pub fn put_more_bytes<K: Sink>(sink: &mut K, page: &mut Page, bytes: &[u8]) -> Result<(), Failed>
    ensures { Fills K.page sink.old sink.new page.old page.new result
        (codes " " ++ bytes_text bytes.now) }
{
    put_word(sink, page, " ")?;
    put_bytes(sink, page, bytes)
}
