//! The plain values that every other crate speaks of: numbers with names, limits, owners of
//! packets, and the facts of a history. It knows nothing of packets, buffers or time.
#![tactic(auto)]

mod event;
mod fact;
mod limits;
mod listed;
mod numbers;
mod octets;
mod owner;
mod request;
mod state;

pub use event::Event;
pub use fact::{Fact, Who};
pub use limits::{
    HEAD_BYTES, LEAST_RING, Limits, MOST_CALLS, MOST_CAPACITY, MOST_CREDITS, MOST_DATAGRAM_BYTES,
    MOST_GIVEN, MOST_JOBS, MOST_MESSAGE_BYTES, MOST_REFERENCES, MOST_RING, MOST_SESSIONS,
    MOST_TIMEOUT, PART_BYTES, PEERS, SESSION_NUMBERS, USUAL_JOBS, USUAL_RING, USUAL_TIMEOUT,
};
pub use listed::Listed;
pub use memory_count::NoMemory;
pub use numbers::{CallNo, NodeId, Peer, Place, SessionNo};
pub use octets::Octets;
pub use owner::Owner;
pub use request::RequestNo;
pub use state::{DropReason, SessionState};
