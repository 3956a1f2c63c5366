//! The grammar of the command line: the subcommands, each declared once, and what their words ask
//! for. It knows nothing of what a subcommand does.
#![tactic(auto)]

mod forms;
mod idle;
mod near;
mod number;
mod row;
mod subcommand;
mod task;
mod telling;
mod terms;
mod text;
mod words;

pub use task::{Idle, LoadSpec, ServeSpec, Task, WordsError};
pub use telling::{complaint, usage};
pub use words::read_words;
