//! Which facts the rules of a node note over its lists, compared with those that follow: of a
//! packet, a timer, a job and a session. It changes no list.
#![tactic(auto)]

mod client_facts;
mod control_facts;
mod finishing;
mod flushing;
mod front_facts;
mod heads;
mod next;
mod retrying;
mod ring_facts;
mod says;
mod server_facts;
mod session_ends;
mod speaking;
mod watching;

pub use control_facts::control_noted;
pub use finishing::{awaited, next_finished};
pub use flushing::flushed;
pub use heads::is_spelled;
pub use next::{is_end, is_heard, is_next_begun, is_next_posted};
pub use retrying::retried;
pub use ring_facts::handled;
pub use session_ends::{session_ended, slot_flushed};
pub use speaking::{answered, spoken};
pub use watching::{is_quiet, watched};
