//! Whose events are noted, and of what.
use rpc_base::{CallNo, NodeId, Owner, Peer, RequestNo, SessionNo, Who};

pub const NODE: Who = Who::Node(NodeId(0));

pub const CLIENT: SessionNo = SessionNo(1);

pub const SERVER: SessionNo = SessionNo(2);

pub const PEER: Peer = Peer(3);

pub const CALL: CallNo = CallNo(4);

/// The life of another end, or of a node made anew.
pub const LIFE: u32 = 8;

/// Request 13, the second one of slot 5.
pub fn request() -> RequestNo {
    RequestNo::of(5, 1)
}

/// The owner of a call's packets.
pub fn of_call() -> Owner {
    Owner::Ask {
        session: CLIENT,
        request: request(),
    }
}

/// The owner of a slot's replies.
pub fn of_slot() -> Owner {
    Owner::Reply {
        session: SERVER,
        request: request(),
    }
}
