//! The grammar of scripts: what a script is, and the reader that tells a script from a bad one with
//! its first bad line. It knows nothing of what the commands do.
#![tactic(auto)]

mod ask;
mod bad;
mod before;
mod command;
mod line;
mod numbers;
mod reading;
mod refusal;
mod script;
mod text;
mod verb;

pub use ask::MOST_BYTES as MOST_ASK_BYTES;
pub use bad::{BadScript, BadWhy, ReadError};
pub use before::{FEWEST_NODES, MOST_NODES};
pub use command::{
    LAST_SESSION, LAST_TYPE, LEAST_CREDITS, LEAST_RING, LEAST_ROUNDS, MOST_CREDITS, MOST_RING,
    MOST_ROOM, MOST_ROUNDS, MOST_TICK,
};
pub use line::{AskBytes, Command, Line};
pub use numbers::number;
pub use reading::{MOST_BYTES, MOST_LINES, read};
pub use script::Script;
