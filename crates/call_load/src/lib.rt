//! Asks calls of a server over the sessions of one endpoint, so many at a time or at set times, and
//! counts what comes of them. It knows nothing of words, of printing, and of what carries packets.
#![tactic(auto)]

mod aim;
mod caller;
mod counts;
mod ended;
mod slots;
mod tally;
mod watch;

pub use aim::{Aim, MOST_CALLERS, MOST_PENDING};
pub use caller::{Caller, Standing};
pub use counts::Counts;
pub use tally::{Ending, Tally, Turns};
pub use watch::{REASONS, Watch};
