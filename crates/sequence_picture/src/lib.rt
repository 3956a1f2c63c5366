//! What a picture of a history shows: each copy of a datagram with the facts that it stands
//! between, and the facts that stand alone. It knows nothing of lanes, places on a page or text.
#![tactic(auto)]

mod arrival;
mod draws;
mod marks;
mod things;
mod tracks;

pub use arrival::{Way, way_sent};
pub use draws::draw;
pub use marks::is_marked;
pub use things::{Drawn, End, Track};
