//! The readers of datagrams, of scripts and of words, and the writers of scripts and of reports,
//! row by row: each line of standard input that begins with the name of one is a row, and is told
//! with what it answers. Other lines stand as they are. A further row costs no proof.
#![tactic(auto)]

mod packets;
mod report;
mod scripts;
mod text;
mod words;

use std::io;

fn main(rt: HostRuntime) -> io::Result<()> {
    for line in rt.lines(rt.alloc()) {
        let line = line?;
        let row = line.as_str();
        println!(rt; "{row}")?;
        let (reader, text) = row.split_once(' ').unwrap_or((row, ""));
        match reader {
            "packet" => packets::tell(&rt, text)?,
            "message" => packets::cut(&rt, text)?,
            "script" => scripts::tell(&rt, text)?,
            "explain" => scripts::explain(&rt, text)?,
            "drill" => scripts::drill(&rt, text)?,
            "report" => report::tell(&rt)?,
            "words" => words::tell(&rt, text)?,
            "complain" => words::complain(&rt, text)?,
            _ => {}
        }
    }
    Ok(())
}
