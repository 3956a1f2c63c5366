//! What rows are made of.
use endpoint_loop::{AskError, Delivery};
use rpc_base::{SessionNo, SessionState};
use session_mgmt::ConnectError;

/// What is done to an endpoint or looked at, and what has to come of it.
#[derive(Clone, Copy)]
pub enum Step {
    /// The client end of a session with the other node, whose end is number 0, is made.
    PairClient {
        credits: u16,
        answer: Result<SessionNo, ConnectError>,
    },
    /// The same, of the server end.
    PairServer {
        credits: u16,
        answer: Result<SessionNo, ConnectError>,
    },
    SetRate {
        session: SessionNo,
        rate: u32,
        answer: Result<(), SessionState>,
    },
    /// A call is asked on session 0, which has to accept it.
    Call {
        req_type: u8,
        bytes: &'static [u8],
        room: u32,
        tag: u64,
    },
    /// A call of so many zeros is refused on session 7, and both buffers come back.
    Refuse {
        len: u32,
        why: AskError,
    },
    /// A datagram comes from the other node.
    Deliver {
        bytes: &'static [u8],
        answer: Delivery,
    },
    /// A poll at the moment 0 handles and sends so many packets over a link that is neither busy
    /// nor at fault.
    Poll {
        handled: u32,
        sent: u32,
    },
    /// A poll meets a fault of the link.
    PollFails,
    /// A turn at the moment 0, which receives before its poll.
    Turn {
        handled: u32,
        sent: u32,
    },
    TurnFails,
    /// The facts so far are those of these lines.
    Facts(&'static str),
    /// It has nothing to do.
    Quiet,
    /// So many handlers ran, and so many datagrams found no room.
    Counts {
        ran: u64,
        overflowed: u64,
    },
    /// This datagram was sent to the other node, as number `n`, from 0 on.
    Sent {
        n: u32,
        bytes: &'static [u8],
    },
    /// No datagram was sent as number `n`.
    Unsent(u32),
    /// So many facts tell of a datagram that was sent.
    SentFacts(u32),
    /// So many calls ended.
    Ended(usize),
    /// The call that ended as number `n`, from 0 on, has this tag, this answer, and a buffer with
    /// so much room for it.
    Done {
        n: usize,
        tag: u64,
        answer: &'static [u8],
        room: u32,
    },
}

/// A step of a client, node 0, and of a server, node 1.
#[derive(Clone, Copy)]
pub enum Joint {
    Client(Step),
    Server(Step),
    /// The datagram that the client sent as number `n`, from 0 on, finds room at the server.
    Over(u32),
    /// The same, from the server to the client.
    Back(u32),
}
