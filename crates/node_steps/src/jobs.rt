//! The jobs of a node that are out.
use rpc_base::{RequestNo, SessionNo};

/// Whose a job is that was given and isn't finished. Its bytes are with the workers.
#[derive(Clone, Copy, Debug, PartialEq, Eq)]
pub struct JobName {
    pub session: SessionNo,
    pub request: RequestNo,
    pub req_type: u8,
}
