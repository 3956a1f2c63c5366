//! A picture of a history as SVG text: a lane for each node, time going down. What it shows is
//! `sequence_picture`'s matter; here are places on the page, colours and words.
#![tactic(auto)]

mod arrow;
mod colour;
mod mark;
mod names;
mod page;
mod places;
mod short;
mod words;

pub use page::Svg;
pub use places::Layout;
