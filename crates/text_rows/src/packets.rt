//! Datagrams: what is read of them, and the head that this is written with; and how messages are
//! cut.
use packet_header::{count, decode, encode, part_len};
use rpc_base::HEAD_BYTES;
use std::alloc::{AllocError, Global};
use std::io;

/// The datagram of a row: hexadecimal digits, and behind `+` how many zeros follow.
fn datagram(alloc: Global, row: &str) -> Result<Option<Vec<u8>>, AllocError> {
    let (digits, zeros) = row.split_once(" +").unwrap_or((row, "0"));
    let (Ok(mut bytes), Ok(zeros)) = (hex::decode(alloc, digits), zeros.parse::<u32>()) else {
        return Ok(None);
    };
    for _zero in 0..zeros {
        bytes.push(0)?;
    }
    Ok(Some(bytes))
}

/// Tells the packet that a datagram spells and the head that it is written with, or why it spells
/// none.
pub fn tell(rt: &(impl Print + AllocGlobal), row: &str) -> io::Result<()> {
    let Some(bytes) = datagram(rt.alloc(), row)? else {
        return println!(rt; "  no row");
    };
    match decode(bytes.as_slice()) {
        Ok(packet) => {
            let mut head = [0; HEAD_BYTES];
            encode(&packet, &mut head);
            println!(rt; "  {packet:?}")?;
            println!(rt; "  {}", hex::encode(rt.alloc(), head)?)
        }
        Err(refusal) => println!(rt; "  {refusal:?}"),
    }
}

/// Tells how a message of so many bytes is cut.
pub fn cut(rt: &impl Print, row: &str) -> io::Result<()> {
    let Ok(size) = row.parse::<u32>() else {
        return println!(rt; "  no row");
    };
    let packets = count(size);
    let last = part_len(size, packets - 1);
    println!(rt; "  {packets} packets, the last of {last} bytes")
}
