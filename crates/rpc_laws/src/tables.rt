//! What a history leaves at a node: its lists and tables, as plain data that definitions speak of.
use crate::calls::Calls;
use packet_header::{Life, Packet};
use rpc_base::{CallNo, Listed, NodeId, Octets, Owner, Peer, RequestNo, SessionNo, SessionState};

/// A datagram as it arrived.
#[derive(Debug, Drop)]
pub struct Arrival {
    pub peer: Peer,
    pub bytes: Octets,
}

/// A packet that was posted and is neither sent nor flushed.
#[derive(Clone, Copy, Debug, PartialEq, Eq)]
pub struct Queued {
    pub owner: Owner,
    pub number: u16,
    /// The clock, in microseconds, from which on it may be sent, where it is paced and wasn't ready
    /// yet when a poll ended. `None` where it is ready.
    pub due: Option<u64>,
}

/// What never changes of one end of a session once it is connected: its number here, the peer, its
/// number there, and the life of the endpoint there. A client end that isn't connected yet has
/// 65,535 there, which is no session's number, and 0, which is nobody's life.
#[derive(Clone, Copy, Debug, PartialEq, Eq)]
pub struct Way {
    pub number: SessionNo,
    pub peer: Peer,
    pub other: SessionNo,
    pub life: Life,
}

/// What never changes of a call: its number, its type, the room for its answer in bytes, and its
/// own bytes.
#[derive(Debug, Drop)]
pub struct Asking {
    pub number: CallNo,
    pub req_type: u8,
    pub room: u32,
    pub ask: Octets,
}

/// How far an active call has come.
#[derive(Debug, Drop)]
pub struct Progress {
    pub request: RequestNo,
    /// Replies taken in turn.
    pub got: u64,
    /// One more than the number of the packet posted last, or `got` after a rollback.
    pub posted: u64,
    /// Rollbacks since the last reply was taken, or since the call began.
    pub rolls: u64,
    /// The clock, in microseconds, when a reply was taken last or packet `got` was sent last.
    pub mark: u64,
    /// The size of the answer, known from its first packet on.
    pub answer: Option<u32>,
    /// The bytes of the answer taken so far.
    pub parts: Octets,
}

/// A call that isn't over. It waits where it has no progress.
#[derive(Debug, Drop)]
pub struct Call {
    pub what: Asking,
    pub progress: Option<Progress>,
}

/// A client session with its calls that aren't over.
#[derive(Debug, Drop)]
pub struct Client {
    pub way: Way,
    pub state: SessionState,
    pub limit: u16,
    pub free: u64,
    /// How many connect requests were sent since it was opened, or disconnect requests since it
    /// began to close; 0 in each other state.
    pub sends: u64,
    /// The clock, in microseconds, when the last of them was sent; 0 where none was.
    pub sent_at: u64,
    /// How many calls were accepted on it.
    pub asked: u64,
    /// How many requests began in each of its eight slots.
    pub turns: Listed<u64>,
    pub calls: Calls,
}

/// The newest request of a slot of a server session.
#[derive(Debug, Drop)]
pub struct Served {
    pub number: RequestNo,
    pub req_type: u8,
    pub size: u32,
    /// Client packets taken in turn.
    pub taken: u64,
    /// The bytes of the request taken so far, none where they went with a job.
    pub ask: Octets,
    /// Whether a worker has it: from when its job was given, with its bytes, until the handler's
    /// answer is there.
    pub working: bool,
    /// The handler's answer, once it ran.
    pub answer: Option<Octets>,
}

/// A server session with the newest request of each slot.
#[derive(Debug, Drop)]
pub struct Server {
    pub way: Way,
    pub credits: u16,
    pub slots: Listed<Served>,
}

/// A request that became a background job, with its type and its bytes.
#[derive(Debug, Drop)]
pub struct Job {
    pub session: SessionNo,
    pub request: RequestNo,
    pub req_type: u8,
    pub ask: Octets,
}

/// The background jobs of a node.
#[derive(Debug, Drop)]
pub struct Jobs {
    /// How many jobs may be given and not finished at one time.
    pub limit: u32,
    /// How many jobs were given so far.
    pub given: u64,
    /// Those that aren't finished, in the order in which they were given.
    pub out: Listed<Job>,
}

/// How many facts of four kinds a node noted. Each count stops at 2^64 - 1.
#[derive(Clone, Copy, Debug, PartialEq, Eq)]
pub struct Counted {
    pub ran: u64,
    pub given: u64,
    pub dropped: u64,
    pub overflowed: u64,
}

/// The rate of a client session.
#[derive(Debug, Drop)]
pub struct Pace {
    pub session: SessionNo,
    /// Bytes per millisecond, 0 where its packets aren't paced.
    pub rate: u32,
    /// The earliest clock, in microseconds, at which its next paced packet is due.
    pub next: u64,
}

/// The lists and tables of a node in its present life.
#[derive(Debug, Drop)]
pub struct Lists {
    pub me: NodeId,
    /// The life of the endpoint that the node is.
    pub life: Life,
    /// The length of its receive ring.
    pub room: u32,
    /// Microseconds after which an unanswered packet is taken for lost.
    pub timeout: u64,
    /// How many calls were accepted.
    pub asked: u64,
    /// How many numbers of server sessions were used.
    pub server_numbers: u64,
    /// The greatest life that is known of each of the 256 peers, by their numbers, 0 where none is:
    /// a peer's life is known once it connected or was paired.
    pub known: Listed<Life>,
    pub counts: Counted,
    pub ring: Listed<Arrival>,
    /// The control packets that arrived and weren't handled.
    pub inbox: Listed<Arrival>,
    /// Those that are ready first, in the order in which they are sent, and then the others, by due
    /// time.
    pub queued: Listed<Queued>,
    /// The rates of all client sessions, in the order of their numbers.
    pub paces: Listed<Pace>,
    /// All client sessions, in the order of their numbers, from 0 on.
    pub clients: Listed<Client>,
    /// The live server sessions, in the order of their numbers.
    pub servers: Listed<Server>,
    pub jobs: Jobs,
}

/// A node's lists and its clock in microseconds.
#[derive(Debug, Drop)]
pub struct Timed {
    pub lists: Lists,
    pub clock: u64,
}

/// A job of a node that was worked and isn't finished. Only a world that says when jobs are worked
/// knows these.
#[derive(Debug, Drop)]
pub struct WorkedJob {
    pub node: NodeId,
    pub session: SessionNo,
    pub request: RequestNo,
}

/// A packet to be sent: to whom, what, and with which body.
#[derive(Debug, Drop)]
pub struct Outgoing {
    pub peer: Peer,
    pub packet: Packet,
    pub body: Octets,
}

/// A copy of a datagram on its way.
#[derive(Debug, Drop)]
pub struct InFlight {
    pub from: NodeId,
    pub to: NodeId,
    pub bytes: Octets,
}
