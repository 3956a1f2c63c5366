//! Text in one line, with signs for what a line can't have.
use std::alloc::{AllocError, Global};

/// What stands behind a backslash, and the byte that it is for.
const SIGNS: [(char, u8); 4] = [('n', b'\n'), ('r', b'\r'), ('t', b'\t'), ('e', 0x1b)];

// Adds what a piece stands for that began behind a backslash: a sign's byte and the rest, or, for
// `*N;`, N line feeds and the rest.
fn add_piece(text: &mut Vec<u8>, piece: &str) -> Result<(), AllocError> {
    for (sign, byte) in SIGNS {
        if let Some(rest) = piece.strip_prefix(sign) {
            text.push(byte)?;
            text.extend_from_slice(rest.as_bytes())?;
            return Ok(());
        }
    }
    let (number, rest) = piece.split_once(';').unwrap_or((piece, ""));
    let feeds = number.trim_start_matches('*').parse::<u32>().unwrap_or(0);
    for _feed in 0..feeds {
        text.push(b'\n')?;
    }
    text.extend_from_slice(rest.as_bytes())?;
    Ok(())
}

/// The bytes that a row stands for.
pub fn bytes_of(alloc: Global, row: &str) -> Result<Vec<u8>, AllocError> {
    let mut text = Vec::new(alloc);
    let mut pieces = row.split('\\');
    if let Some(first) = pieces.next() {
        text.extend_from_slice(first.as_bytes())?;
    }
    for piece in pieces {
        add_piece(&mut text, piece)?;
    }
    Ok(text)
}
