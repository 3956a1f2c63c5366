//! What an application of eRPC names. An echo over UDP, asked once of a server with the plain
//! service:
//!
//! ```text
//! use erpc_lib::{Credits, Memory, Outcome, RpcError, udp_plain};
//!
//! fn ask<H>(waits: H, rt: &HostRuntime, addr: &str) -> Result<Outcome, RpcError>
//! where
//!     H: Wait + Drop,
//! {
//!     let mut memory = Memory::new(rt.alloc());
//!     let mut node = udp_plain(&mut memory, waits, rt, "127.0.0.1:0")?;
//!     let session = node.connect_within(addr, Credits::one(), 100_000)?;
//!     node.ask(session, ECHO, b"hello", 64)?;
//!     let done = node.wait_ended(100_000)?;
//!     let outcome = done.outcome;
//!     node.give_back(done);
//!     node.close();
//!     Ok(outcome)
//! }
//! ```
//!
//! It ends `Ok`, with the answer in `done.resp`; `TooSmall`, where the answer has more than 64
//! bytes; or `PeerLost`, where none came, and the handler may have run. `example_echo` and
//! `example_counter` are whole programs, and docs/TUTORIAL.md goes through both.
#![tactic(auto)]

mod udp;

pub use client_core::{Done, Outcome};
pub use endpoint_loop::{AskError, Continuation, Endpoint, LinkFault, Refused, Turn};
pub use memory_count::{Memory, NoMemory};
pub use message_buffer::MsgBuf;
pub use packet_header::{FIRST_LIFE, Life};
pub use rpc_base::{CallNo, Limits, NodeId, Peer, SessionNo, SessionState};
pub use rpc_outside::{
    Clock, Duty, Failed, Link, Mode, NoRecord, PlainDuty, PlainService, Recorder, Service, SysClock,
};
pub use rpc_turns::{
    Buffers, Credits, Ended, InlineRunning, NoDuty, NoWorkers, PlainCrew, PlainEndpoint,
    PlainRunning, Rest, RpcError, Running, new_endpoint, no_workers, plain_endpoint, rests_for,
    take_turn,
};
pub use session_mgmt::{CloseError, ConnectError};
pub use udp::{UdpPlain, UdpRunning, udp_plain, udp_running};
pub use udp_link::{Trouble, UdpLink};
pub use worker_crew::{Crew, Hand, LocalWorkers, Spawner, Workers};
