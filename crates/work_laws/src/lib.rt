//! Laws of the jobs that workers on the world's own thread hold: at every step they are those that
//! the world says. It runs nothing.
#![tactic(auto)]

mod laws;

pub use laws::{
    misses_by_order, polls_by_order, starts_anew, stays_by_network, stays_by_others, stays_idle,
    works_by_order, works_next, works_none,
};
