//! What the facts so far tell of sessions and calls, and by that whether the next one is of a call:
//! a call that begins was asked, a handler runs on its call's bytes, and a call ends with its
//! handler's answer.
#![tactic(auto)]

mod book;
mod entries;
mod requests;
mod shelf;
mod telling;

pub use book::Book;
