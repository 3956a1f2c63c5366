//! The definitions over histories: what lists, sessions, calls and requests a history leaves, by
//! which rules a node acts, and the laws that its histories keep. It runs nothing.
#![tactic(auto)]

mod calls;
mod history;
mod rows;
mod tables;

pub use calls::Calls;
pub use history::History;
pub use rows::{ClientRow, ControlRow, EndRow, RetryRow, ServerRow, TimerRow};
pub use tables::{
    Arrival, Asking, Call, Client, Counted, InFlight, Job, Jobs, Lists, Outgoing, Pace, Progress,
    Queued, Served, Server, Timed, Way, WorkedJob,
};
