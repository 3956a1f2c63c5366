//! How a call ends, and what a reply or a timeout does to it.
use message_buffer::MsgBuf;
use rpc_base::{CallNo, DropReason, RequestNo, SessionNo};

/// How a call ended.
#[derive(Clone, Copy, Debug, PartialEq, Eq)]
pub enum Outcome {
    /// The answer is in the response buffer.
    Ok,
    /// The answer has so many bytes, more than the response buffer has room for.
    TooSmall { size: u32 },
    /// The session lost its peer.
    PeerLost,
}

/// A call that is over, with the two buffers that were handed in. The response buffer has the
/// answer where the outcome is `Ok`, and length 0 otherwise.
#[derive(Debug, Drop)]
pub struct Done {
    pub call: CallNo,
    pub session: SessionNo,
    /// The application's own name for the call.
    pub tag: u64,
    pub outcome: Outcome,
    pub req: MsgBuf,
    pub resp: MsgBuf,
}

/// What a CR or Response did, by the client table.
#[derive(Debug, Drop)]
pub enum Reply {
    /// It was taken, and its call goes on.
    Took,
    /// It was taken, and its call is over.
    Ended(Done),
    Dropped(DropReason),
}

/// What a look at a call's clock found.
#[derive(Clone, Copy, Debug, PartialEq, Eq)]
pub enum Timer {
    /// The call hasn't timed out.
    Quiet,
    /// The call is to be rolled back, from `posted` to `got`.
    Roll {
        request: RequestNo,
        posted: u16,
        got: u16,
    },
    /// The ninth timeout without a reply: the session lost its peer.
    Lost,
}
