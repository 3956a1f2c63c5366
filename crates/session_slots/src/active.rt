//! The request that is active in a slot.
use rpc_base::{CallNo, RequestNo};

/// A request that began and isn't over, with the call that it serves.
#[derive(Clone, Copy, Debug)]
pub struct Active {
    pub request: RequestNo,
    pub call: CallNo,
}
