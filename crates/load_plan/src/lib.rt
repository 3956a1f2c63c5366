//! What the calls of a load ask, and which answers are right.
#![tactic(auto)]

mod plan;

pub use plan::{Manner, Plan};
