//! The rows of one endpoint, a client, step by step.
use crate::step::Step;
use endpoint_loop::{AskError, Delivery};
use packet_header::BadPacket;
use rpc_base::{SessionNo, SessionState};
use session_mgmt::ConnectError;

const FIRST: SessionNo = SessionNo(0);

const SECOND: SessionNo = SessionNo(1);

const UNKNOWN: Result<(), SessionState> = Err(SessionState::Unknown);

/// A poll notes its end alone, and what is no packet is refused.
pub const IDLE: [Step; 7] = [
    Step::Poll {
        handled: 0,
        sent: 0,
    },
    Step::Quiet,
    Step::Facts("0 polled 0\n"),
    Step::Deliver {
        bytes: b"no packet",
        answer: Delivery::Bad(BadPacket::Short { len: 9 }),
    },
    Step::Quiet,
    Step::Unsent(0),
    Step::Facts(
        "\
0 polled 0
0 bad 1 6e6f207061636b6574
",
    ),
];

/// A posted packet that meets a fault of the link is sent in the next poll.
pub const FAULT: [Step; 7] = [
    Step::PairClient {
        credits: 1,
        answer: Ok(FIRST),
    },
    Step::Call {
        req_type: 1,
        bytes: b"hello",
        room: 64,
        tag: 0,
    },
    Step::PollFails,
    Step::Facts(
        "\
0 paired client 0 peer 1 with 0 credits 1 life 1
0 asked 0 on 0 type 1 room 64 68656c6c6f
0 begun 0 as 0
0 posted c 0 0 0
0 polled 0
",
    ),
    Step::Unsent(0),
    Step::Poll {
        handled: 0,
        sent: 1,
    },
    Step::Facts(
        "\
0 paired client 0 peer 1 with 0 credits 1 life 1
0 asked 0 on 0 type 1 room 64 68656c6c6f
0 begun 0 as 0
0 posted c 0 0 0
0 polled 0
0 sent 1 c 0 0 0 e200010000050000000000000000000000000001 68656c6c6f
0 polled 0
",
    ),
];

/// A session that was never opened has no rate.
pub const RATES: [Step; 5] = [
    Step::SetRate {
        session: FIRST,
        rate: 1_000,
        answer: UNKNOWN,
    },
    Step::PairClient {
        credits: 1,
        answer: Ok(FIRST),
    },
    Step::SetRate {
        session: FIRST,
        rate: 1_000,
        answer: Ok(()),
    },
    Step::SetRate {
        session: SECOND,
        rate: 1_000,
        answer: UNKNOWN,
    },
    Step::Facts(
        "\
0 nrate 0 unknown
0 paired client 0 peer 1 with 0 credits 1 life 1
0 rated 0 1000
0 nrate 1 unknown
",
    ),
];

/// A request of one byte more than a message has, and a session that isn't there.
pub const REFUSED_CALLS: [Step; 3] = [
    Step::Refuse {
        len: 1_048_577,
        why: AskError::TooLarge { len: 1_048_577 },
    },
    Step::Refuse {
        len: 5,
        why: AskError::NotConnected {
            state: SessionState::Unknown,
        },
    },
    Step::Facts(
        "\
0 ncall 7 toolarge 1048577
0 ncall 7 unknown
",
    ),
];

const FULL: Result<SessionNo, ConnectError> = Err(ConnectError::RingFull {
    shares: 32,
    credits: 1,
    ring: 32,
});

/// A ring of 32 places has room for 32 credits.
pub const REFUSED_PAIRS: [Step; 4] = [
    Step::PairClient {
        credits: 32,
        answer: Ok(FIRST),
    },
    Step::PairClient {
        credits: 1,
        answer: FULL,
    },
    Step::PairServer {
        credits: 1,
        answer: FULL,
    },
    Step::Facts(
        "\
0 paired client 0 peer 1 with 0 credits 32 life 1
0 nconnect ring 32 1 32
0 nconnect ring 32 1 32
",
    ),
];

/// Of 65 datagrams a turn receives the first 64, and the next turn the last.
pub const MOST_ARRIVALS: [Step; 4] = [
    Step::Turn {
        handled: 64,
        sent: 64,
    },
    Step::Turn {
        handled: 1,
        sent: 1,
    },
    Step::Turn {
        handled: 0,
        sent: 0,
    },
    Step::Counts {
        ran: 0,
        overflowed: 0,
    },
];

/// A turn that meets a fault in receiving polls all the same, and the next turn receives.
pub const RECEIVING_FAULT: [Step; 3] = [
    Step::TurnFails,
    Step::Facts("0 polled 0\n"),
    Step::Turn {
        handled: 1,
        sent: 1,
    },
];

/// Four calls, whose requests are the bytes 0 to 3.
pub const ASK_FOUR: [Step; 5] = [
    Step::PairClient {
        credits: 4,
        answer: Ok(FIRST),
    },
    Step::Call {
        req_type: 1,
        bytes: b"\x00",
        room: 1,
        tag: 0,
    },
    Step::Call {
        req_type: 1,
        bytes: b"\x01",
        room: 1,
        tag: 0,
    },
    Step::Call {
        req_type: 1,
        bytes: b"\x02",
        room: 1,
        tag: 0,
    },
    Step::Call {
        req_type: 1,
        bytes: b"\x03",
        room: 1,
        tag: 0,
    },
];

/// Their requests were sent in the order of the calls, each once.
pub const FOUR_SENT: [Step; 6] = [
    Step::Sent {
        n: 0,
        bytes: b"\xe2\0\x01\0\0\x01\0\0\0\0\0\0\0\0\0\x00\0\0\0\x01\x00",
    },
    Step::Sent {
        n: 1,
        bytes: b"\xe2\0\x01\0\0\x01\0\0\0\0\0\0\0\0\0\x01\0\0\0\x01\x01",
    },
    Step::Sent {
        n: 2,
        bytes: b"\xe2\0\x01\0\0\x01\0\0\0\0\0\0\0\0\0\x02\0\0\0\x01\x02",
    },
    Step::Sent {
        n: 3,
        bytes: b"\xe2\0\x01\0\0\x01\0\0\0\0\0\0\0\0\0\x03\0\0\0\x01\x03",
    },
    Step::Unsent(4),
    Step::SentFacts(4),
];
