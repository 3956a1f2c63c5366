//! The rows of a client and a server, step by step.
use crate::step::{Joint, Step};
use rpc_base::SessionNo;

const FIRST: SessionNo = SessionNo(0);

/// A request that is repeated is answered again, and doesn't count.
pub const COUNTED: [Joint; 19] = [
    Joint::Client(Step::PairClient {
        credits: 1,
        answer: Ok(FIRST),
    }),
    Joint::Server(Step::PairServer {
        credits: 1,
        answer: Ok(FIRST),
    }),
    // The first call is answered with 0.
    Joint::Client(Step::Call {
        req_type: 1,
        bytes: b"how many",
        room: 8,
        tag: 0,
    }),
    Joint::Client(Step::Poll {
        handled: 0,
        sent: 1,
    }),
    Joint::Over(0),
    Joint::Server(Step::Poll {
        handled: 1,
        sent: 1,
    }),
    Joint::Back(0),
    Joint::Client(Step::Poll {
        handled: 1,
        sent: 0,
    }),
    Joint::Client(Step::Done {
        n: 0,
        tag: 0,
        answer: b"\0\0\0\0\0\0\0\0",
        room: 8,
    }),
    // Its request comes again, and then the second call is answered with 1.
    Joint::Over(0),
    Joint::Server(Step::Poll {
        handled: 1,
        sent: 1,
    }),
    Joint::Client(Step::Call {
        req_type: 1,
        bytes: b"how many",
        room: 8,
        tag: 0,
    }),
    Joint::Client(Step::Poll {
        handled: 0,
        sent: 1,
    }),
    Joint::Over(1),
    Joint::Server(Step::Poll {
        handled: 1,
        sent: 1,
    }),
    Joint::Back(2),
    Joint::Client(Step::Poll {
        handled: 1,
        sent: 0,
    }),
    Joint::Client(Step::Done {
        n: 1,
        tag: 0,
        answer: b"\0\0\0\0\0\0\0\x01",
        room: 8,
    }),
    Joint::Server(Step::Counts {
        ran: 2,
        overflowed: 0,
    }),
];

/// Two calls with tags and buffers of their own: what was handed in with a call comes back with
/// its end.
pub const TAGGED: [Joint; 14] = [
    Joint::Client(Step::PairClient {
        credits: 2,
        answer: Ok(FIRST),
    }),
    Joint::Server(Step::PairServer {
        credits: 2,
        answer: Ok(FIRST),
    }),
    Joint::Client(Step::Call {
        req_type: 1,
        bytes: b"one",
        room: 64,
        tag: 7,
    }),
    Joint::Client(Step::Call {
        req_type: 2,
        bytes: b"other",
        room: 100,
        tag: 9,
    }),
    Joint::Client(Step::Poll {
        handled: 0,
        sent: 2,
    }),
    Joint::Over(0),
    Joint::Over(1),
    Joint::Server(Step::Poll {
        handled: 2,
        sent: 2,
    }),
    Joint::Back(0),
    Joint::Back(1),
    Joint::Client(Step::Poll {
        handled: 2,
        sent: 0,
    }),
    Joint::Client(Step::Ended(2)),
    Joint::Client(Step::Done {
        n: 0,
        tag: 7,
        answer: b"one",
        room: 64,
    }),
    Joint::Client(Step::Done {
        n: 1,
        tag: 9,
        answer: b"rehto",
        room: 100,
    }),
];

const NEWEST_FACTS: &str = "\
1 paired server 0 peer 0 with 0 credits 2 life 1
1 arrived 0 e2008200000200000000000000000000000000016162
1 arrived 0 e2008100000200000000000000000001000000016364
1 took s 0 0 0
1 given 0 0
1 took s 0 1 0
1 given 0 1
1 polled 0
1 ran 0 1 type 129 6364 6364
1 posted s 0 1 0
1 ran 0 0 type 130 6162 6261
1 posted s 0 0 0
1 sent 0 s 0 1 0 e203810000020000000000000000000100000001 6364
1 sent 0 s 0 0 0 e203820000020000000000000000000000000001 6261
1 polled 0
";

/// Jobs end in the order in which the workers give them back.
pub const NEWEST_FIRST: [Joint; 15] = [
    Joint::Client(Step::PairClient {
        credits: 2,
        answer: Ok(FIRST),
    }),
    Joint::Server(Step::PairServer {
        credits: 2,
        answer: Ok(FIRST),
    }),
    // Two calls for a worker become jobs.
    Joint::Client(Step::Call {
        req_type: 130,
        bytes: b"ab",
        room: 2,
        tag: 0,
    }),
    Joint::Client(Step::Call {
        req_type: 129,
        bytes: b"cd",
        room: 2,
        tag: 1,
    }),
    Joint::Client(Step::Poll {
        handled: 0,
        sent: 2,
    }),
    Joint::Over(0),
    Joint::Over(1),
    Joint::Server(Step::Poll {
        handled: 2,
        sent: 0,
    }),
    // The second one comes back first, and their answers are sent.
    Joint::Server(Step::Poll {
        handled: 0,
        sent: 2,
    }),
    Joint::Server(Step::Facts(NEWEST_FACTS)),
    Joint::Back(0),
    Joint::Back(1),
    Joint::Client(Step::Poll {
        handled: 2,
        sent: 0,
    }),
    Joint::Client(Step::Done {
        n: 0,
        tag: 1,
        answer: b"cd",
        room: 2,
    }),
    Joint::Client(Step::Done {
        n: 1,
        tag: 0,
        answer: b"ba",
        room: 2,
    }),
];
