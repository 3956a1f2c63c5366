//! A report in which each event stands once, as docs/FORMATS.md has its line. Scripts show most of
//! them in their place; some come in no script.
mod calls;
mod datagrams;
mod names;
mod sessions;

use report_text::print_facts;
use rpc_outside::{IoSink, MemRecorder};
use std::io::{self, BufWriter, Write};

// All events, each once.
fn note_all(rec: &mut MemRecorder) {
    sessions::note_client(rec);
    sessions::note_server(rec);
    sessions::note_refusals(rec);
    calls::note(rec);
    calls::note_with_bytes(rec);
    datagrams::note(rec);
    datagrams::note_network(rec);
}

/// Writes the report.
pub fn tell(rt: &HostRuntime) -> io::Result<()> {
    let mut rec = MemRecorder::new(rt.alloc());
    note_all(&mut rec);
    let mut sink = IoSink::new(BufWriter::new(rt.alloc(), rt.stdout())?);
    if !rec.whole() || print_facts(rec.facts(), &mut sink).is_err() {
        return Err(io::Error::from(io::ErrorKind::OutOfMemory));
    }
    sink.into_writer().flush()
}
