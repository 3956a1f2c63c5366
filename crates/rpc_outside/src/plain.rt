//! The plain service: "The plain service" of docs/PROTOCOL.md. Echo, reverse, tally and fill.
mod answers;
mod service;

pub use service::{PlainDuty, PlainService};
