//! Each end of a session with how far it came, in lists that share a pool of buffers, and the queue
//! of their packets: a ring, and behind it a pacer. What holds of all lists together it doesn't
//! know; it notes no facts and reads no clock.
#![tactic(auto)]

mod ends;
mod queue;
mod server;
mod side;
mod stage;

pub use ends::{code_at, end_in, older_in, place_in};
pub use queue::{Front, Queue};
pub use server::{
    ServerEnd, end_at, place_of, reply_at, reply_flushed_at, reply_of, reply_sent_at,
};
pub use side::{
    ClientEnd, Side, begin_at, enqueue_at, flushed_at, heard_at, lose_at, packet_at, post_at,
    roll_at, sent_at, told_row,
};
pub use stage::Stage;
