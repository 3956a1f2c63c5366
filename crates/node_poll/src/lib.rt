//! What a node does in a poll about its calls: step 1, in which jobs are finished, step 3, the packets
//! of calls, step 5, posting, and step 6, sending; and a poll's begin and end.
#![tactic(auto)]

mod jobs;
mod packets;
mod polled;
mod posts;
mod sends;

pub use jobs::finish_all;
pub use packets::handle_all;
pub use polled::{close, raise_clock};
pub use posts::post_sessions;
pub use sends::send_all;
