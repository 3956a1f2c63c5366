//! The buffer that holds a message: its bytes and the headers of its packets, in one block of
//! memory. It knows nothing of sessions, of places in a pool, or of what a header says.
#![tactic(auto)]

mod block;
mod buffer;

pub use buffer::MsgBuf;
pub use rpc_base::MOST_CAPACITY;
