//! The server's part of the protocol: the newest requests of one session, with the buffers of their
//! bytes and answers. It works on the endpoint's pool, transmit ring and recorder, which it is
//! handed, and knows nothing of the receive ring, links or clocks.
#![tactic(auto)]

mod buffers;
mod homes;
mod running;
mod session;
mod slot;
mod slots;
mod step;

pub use session::ServerSession;
pub use step::Step;
