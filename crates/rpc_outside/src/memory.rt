//! The outside in memory: ends that fail exactly where they are told to, and ends that never fail.
mod address;
mod arrivals;
mod bytes;
mod calls;
mod clock;
mod copying;
mod firm;
mod link;
mod recorder;

pub use bytes::{MemSink, MemSource};
pub use clock::StepClock;
pub use firm::{FirmLink, FirmSink, FirmSource};
pub use link::MemLink;
pub use recorder::{MemRecorder, NoRecord};
