//! What a lawful history is, what makes one, and which of its fronts are lawful. It runs nothing.
#![tactic(auto)]

mod laws;

pub use laws::{
    lawful_is_checked, runs_are_lawful, what_is_own_is_told, what_is_told_is_own,
    whole_fronts_are_lawful,
};
