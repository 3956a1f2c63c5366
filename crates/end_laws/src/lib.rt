//! Laws of every history that follows a script, and of every joint run of nodes, over any number of
//! nodes and sessions. It runs nothing.
#![tactic(auto)]

mod laws;

pub use laws::{
    all_genuine, answers_own, ends_agree, joint_answers_own, joint_ends_agree, joint_genuine,
    joint_two_ends, scripts_pair_two_nodes, two_ends, wires_join,
};
