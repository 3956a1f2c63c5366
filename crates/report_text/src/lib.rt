//! The text of a report: a line for each fact of a history. It knows nothing of how facts come
//! about.
#![tactic(auto)]

mod digits;
mod events;
mod law;
mod line;
mod names;
mod octets;
mod page;
mod pieces;
mod report;
mod shape;

pub use law::text_tells;
pub use page::Page;
pub use report::{print_fact, print_facts};
