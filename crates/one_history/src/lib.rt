//! Laws of one history: two histories that follow one script are the same, and so are two that
//! follow scripts and have the same report. The program calls none of them.
#![tactic(auto)]

mod laws;

pub use laws::{
    facts_tell_their_bytes, network_notes_its_own, reports_have_one_history, runs_tell_their_bytes,
    scripts_have_one_history,
};
