//! Scripts as a user reads them: what a refused line of one was, and what was expected in its
//! place, and a script's own text. It judges nothing: which line is bad and why comes from the
//! reader of scripts.
#![tactic(auto)]

mod explanation;
mod form;
mod script_text;
mod shown;

pub use explanation::Explanation;
pub use script_text::ScriptText;
