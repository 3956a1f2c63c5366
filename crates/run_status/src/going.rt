//! Whether a run of turns goes on.
use crate::status::Status;

/// What a turn of a run answers.
#[derive(Clone, Copy, Debug, PartialEq, Eq)]
pub enum Going {
    /// More turns are to be made.
    On,
    /// The run is over, with this status.
    Over(Status),
}
