//! The words of a command line: what they ask for, and what is told of words that ask for nothing.
use command_line::{complaint, read_words};
use memory_count::{Memory, NoMemory};
use std::alloc::{AllocError, Global};
use std::io;

// The words of a row, which blanks part.
fn words_of(alloc: Global, row: &str) -> Result<Vec<String>, AllocError> {
    let mut words = Vec::new(alloc);
    for word in row.split_whitespace() {
        words.push(String::from_str(alloc, word)?)?;
    }
    Ok(words)
}

/// Tells what the words ask for.
pub fn tell(rt: &(impl Print + AllocGlobal), row: &str) -> io::Result<()> {
    let words = words_of(rt.alloc(), row)?;
    let task = read_words(&mut Memory::new(rt.alloc()), words.as_slice());
    println!(rt; "  {task:?}")
}

fn no_memory(_none: NoMemory) -> io::Error {
    io::Error::from(io::ErrorKind::OutOfMemory)
}

/// Tells what is said to a user of words that ask for nothing.
pub fn complain(rt: &(impl Print + AllocGlobal), row: &str) -> io::Result<()> {
    let words = words_of(rt.alloc(), row)?;
    let text = complaint(&mut Memory::new(rt.alloc()), words.as_slice()).map_err(no_memory)?;
    println!(rt; "  {text}")
}
