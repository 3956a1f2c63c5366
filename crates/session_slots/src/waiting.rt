//! A call that waits for a slot of its session.
use message_buffer::MsgBuf;
use rpc_base::CallNo;

/// A call that waits for a slot, with all that it needs to begin. It is moved in and out whole.
#[derive(Debug, Drop)]
pub struct Waiting {
    /// The number of the call.
    pub call: CallNo,
    /// The application's own name for the call, any 64 bits.
    pub tag: u64,
    /// The type of the request.
    pub req_type: u8,
    /// The message that is asked.
    pub req: MsgBuf,
    /// The buffer that the answer goes into.
    pub resp: MsgBuf,
}
