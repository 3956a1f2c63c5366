//! The rows of the tables by which packets are handled, and of the timers.
use rpc_base::{DropReason, SessionNo};

/// What the server rule says of a Request or RFR.
#[derive(Clone, Copy, Debug, PartialEq, Eq)]
pub enum ServerRow {
    Drops(DropReason),
    /// A new request begins, and its first packet is taken.
    Begins,
    /// The next packet of the newest request of its slot is taken.
    Takes,
    /// A packet that was taken before is answered once more.
    Repeats,
}

/// What the timer rule says of an active call.
#[derive(Clone, Copy, Debug, PartialEq, Eq)]
pub enum TimerRow {
    /// It hasn't timed out.
    Waits,
    /// Its packets that weren't answered are posted again.
    RollsBack,
    /// It timed out once too often, and its session loses its peer.
    Breaks,
}

/// What the client rule says of a CR or Response.
#[derive(Clone, Copy, Debug, PartialEq, Eq)]
pub enum ClientRow {
    Drops(DropReason),
    Takes,
}

/// How a call stands once a reply to it was taken.
#[derive(Clone, Copy, Debug, PartialEq, Eq)]
pub enum EndRow {
    GoesOn,
    /// Its last reply was taken.
    EndsOk,
    /// The first part of its answer tells a size, in bytes, above its room.
    EndsTooSmall(u32),
}

/// What the control rule says of a control packet.
#[derive(Clone, Copy, Debug, PartialEq, Eq)]
pub enum ControlRow {
    /// It has no effect.
    Ignores,
    /// A connect request whose server session is there: its number and its credits are told once
    /// more.
    Confirms { server: SessionNo, credits: u16 },
    /// A connect request for which there is no room.
    Declines,
    /// A connect request for which there is no memory.
    Starves,
    /// A connect request that makes the server session of this number.
    Accepts { server: SessionNo },
    /// A disconnect request that ends a server session.
    Ends,
    /// A disconnect request whose server session isn't there.
    Misses,
    /// A connect reply by which the client session is connected with this server session.
    Connects { server: SessionNo },
    /// A connect reply whose server session nobody uses: it is to be ended.
    Disowns,
    /// A connect reply by which the client session fails.
    Fails,
    /// A disconnect reply by which the client session is closed.
    Closes,
}

/// What the retry rule says of a client session's own connect or disconnect request.
#[derive(Clone, Copy, Debug, PartialEq, Eq)]
pub enum RetryRow {
    Rests,
    /// The request is sent.
    Asks,
    /// It was sent nine times, and no answer came.
    GivesUp,
}
