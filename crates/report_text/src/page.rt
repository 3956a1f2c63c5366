//! A page on which text is gathered, so that a long report goes to its sink in large pieces.
ghost use Rattle.std.specs.Prelude.{◌≡◌, ℕ, ◌+◌, ◌*◌, ◌≤◌, [], ◌++◌, length, flat_map, OnOk};
ghost use Rattle.rpc_outside.specs.Writing.{Prints};
ghost use Rattle.report_text.specs.Names.{byte_text};
ghost use Rattle.report_text.specs.Page.{Fills};

use crate::digits::write_digits;
use rpc_outside::{Failed, Sink, write_all};
use std::marker::Model;

/// Bytes of a page.
const SIZE: usize = 4096;

/// Room for text that did not go to its sink yet. Contracts see the text, as the list of its bytes.
#[derive(Drop)]
pub struct Page {
    bytes: [u8; SIZE],
    len: usize,
}

impl Model for Page {
    ghost use Rattle.std.specs.Prelude.{ℕ, ◌≤◌, List, take};

    ghost Value = { List ℕ };

    ghost view = { λ p. take p.len p.bytes };

    ghost invariant = { λ p. p.len ≤ 4096 };
}

impl Page {
    /// An empty page.
    pub fn new() -> Page
        ensures { result ≡ [] }
    {
        Page {
            bytes: [0; SIZE],
            len: 0,
        }
    }

    /// Lends the text.
    fn text(&self) -> &[u8]
        ensures { result.now ≡ self.now }
    {
        &self.bytes[..self.len]
    }

    /// How many more bytes fit.
    fn room(&self) -> usize
        ensures { result + length self.now ≡ 4096 }
    {
        SIZE - self.len
    }

    /// Puts a piece that fits at the end.
    fn add(&mut self, piece: &[u8])
        requires { length self.old + length piece.now ≤ 4096 }
        ensures { self.new ≡ self.old ++ piece.now }
    {
        let end = self.len + piece.len();
        self.bytes[self.len..end].copy_from_slice(piece);
        self.len = end;
    }

    /// Puts the digits of bytes that fit at the end.
    fn add_digits(&mut self, bytes: &[u8])
        requires { length self.old + 2 * length bytes.now ≤ 4096 }
        ensures { self.new ≡ self.old ++ flat_map byte_text bytes.now }
    {
        let end = self.len + 2 * bytes.len();
        write_digits(bytes, &mut self.bytes[self.len..end]);
        self.len = end;
    }

    /// Empties the page.
    pub fn clear(&mut self)
        ensures { self.new ≡ [] }
    {
        self.len = 0;
    }
}

/// Writes what the page holds to the sink, and empties the page.
pub fn flush<K: Sink>(sink: &mut K, page: &mut Page) -> Result<(), Failed>
    ensures written { Prints (K.page sink.old) (K.page sink.new) result page.old }
    ensures emptied { OnOk result (page.new ≡ []) }
{
    write_all(sink, page.text())?;
    page.clear();
    Ok(())
}

/// Writes a piece for which the page has no room, after what it holds.
#[cold]
fn put_past<K: Sink>(sink: &mut K, page: &mut Page, piece: &[u8]) -> Result<(), Failed>
    ensures { Fills K.page sink.old sink.new page.old page.new result piece.now }
{
    flush(sink, page)?;
    write_all(sink, piece)
}

/// Puts a piece on the page. One that doesn't fit goes to the sink, after what the page holds.
pub fn put<K: Sink>(sink: &mut K, page: &mut Page, piece: &[u8]) -> Result<(), Failed>
    ensures { Fills K.page sink.old sink.new page.old page.new result piece.now }
{
    if piece.len() <= page.room() {
        page.add(piece);
        return Ok(());
    }
    put_past(sink, page, piece)
}

/// Puts the digits of bytes for which the page has no room, after what it holds was written.
#[cold]
fn put_part_past<K: Sink>(sink: &mut K, page: &mut Page, bytes: &[u8]) -> Result<(), Failed>
    requires { 2 * length bytes.now ≤ 4096 }
    ensures { Fills K.page sink.old sink.new page.old page.new result
        (flat_map byte_text bytes.now) }
{
    flush(sink, page)?;
    page.add_digits(bytes);
    Ok(())
}

/// Puts the digits of no more bytes than an empty page has room for.
pub fn put_part<K: Sink>(sink: &mut K, page: &mut Page, bytes: &[u8]) -> Result<(), Failed>
    requires { 2 * length bytes.now ≤ 4096 }
    ensures { Fills K.page sink.old sink.new page.old page.new result
        (flat_map byte_text bytes.now) }
{
    if 2 * bytes.len() <= page.room() {
        page.add_digits(bytes);
        return Ok(());
    }
    put_part_past(sink, page, bytes)
}
