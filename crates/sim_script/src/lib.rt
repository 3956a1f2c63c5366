//! Scripts of the simulation: what they are, which histories follow them, and the report of a
//! history.
#![tactic(auto)]

mod report;

pub use report::{print, report_tells};
pub use script_grammar::{AskBytes, BadScript, BadWhy, Command, Line, ReadError, Script, read};
