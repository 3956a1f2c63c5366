//! What the library meets at its edges: where bytes come from and where they go. Each trait has a
//! form in memory, which fails exactly where it is told to. It knows nothing of packets, scripts or
//! reports.
#![tactic(auto)]

mod clock;
mod edges;
mod failed;
mod kept;
mod link;
mod memory;
mod plain;
mod recorder;
mod service;
mod sink;
mod source;
mod writing;

pub use clock::{Clock, SysClock};
pub use edges::{IoSink, IoSource};
pub use failed::Failed;
pub use kept::Kept;
pub use link::{Got, Link, MOST_LINK_BYTES, Taken};
pub use memory::{
    FirmLink, FirmSink, FirmSource, MemLink, MemRecorder, MemSink, MemSource, NoRecord, StepClock,
};
pub use plain::{PlainDuty, PlainService};
pub use recorder::Recorder;
pub use service::{Duty, Mode, Service};
pub use sink::Sink;
pub use source::Source;
pub use writing::write_all;
