//! Which jobs a poll of an endpoint gives, as its facts tell them. It runs nothing.
#![tactic(auto)]

mod law;

pub use law::polls_give;
