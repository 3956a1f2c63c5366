//! How the steps of a row spell bytes.
use memory_count::{Memory, NoMemory};

// So many bytes, of which byte j is j mod 256.
fn counting(memory: &mut Memory, count: u32) -> Result<Vec<u8>, NoMemory> {
    let mut bytes = Vec::new(memory.alloc());
    for j in 0..count {
        memory.push(&mut bytes, (j % 256) as u8)?;
    }
    Ok(bytes)
}

fn add_zeros(memory: &mut Memory, bytes: &mut Vec<u8>, count: u32) -> Result<(), NoMemory> {
    for _zero in 0..count {
        memory.push(bytes, 0)?;
    }
    Ok(())
}

/// The bytes that a word spells, if it does: `-` none; `*N` N bytes, of which byte j is j mod 256;
/// hexadecimal digits the bytes of each two, and with `+N` behind them N zeros more.
pub fn bytes_of(memory: &mut Memory, word: &str) -> Result<Option<Vec<u8>>, NoMemory> {
    if word == "-" {
        return Ok(Some(Vec::new(memory.alloc())));
    }
    if let Some(count) = word.strip_prefix('*') {
        let Ok(count) = count.parse::<u32>() else {
            return Ok(None);
        };
        return Ok(Some(counting(memory, count)?));
    }
    let (digits, zeros) = word.split_once('+').unwrap_or((word, "0"));
    let Ok(zeros) = zeros.parse::<u32>() else {
        return Ok(None);
    };
    let Ok(mut bytes) = hex::decode(memory.alloc(), digits) else {
        return Ok(None);
    };
    add_zeros(memory, &mut bytes, zeros)?;
    Ok(Some(bytes))
}
