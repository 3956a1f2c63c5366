//! What is told of an active call.
use rpc_base::{CallNo, RequestNo};

/// An active call, as the endpoint that watches its time sees it.
#[derive(Clone, Copy, Debug, PartialEq, Eq)]
pub struct Active {
    pub call: CallNo,
    pub request: RequestNo,
    /// Replies taken in turn.
    pub got: u16,
    /// Packets handed to the queues since the call began or was rolled back, counted from packet 0.
    pub posted: u16,
}
