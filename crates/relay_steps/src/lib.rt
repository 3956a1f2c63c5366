//! Jobs of an endpoint over a desk: they are asked of another server on its session, or worked
//! here, and answered at the ends of their calls.
#![tactic(auto)]

mod lending;
mod passing;

pub use lending::settle_one;
pub use passing::{BACKGROUND, OTHER_SERVER, pass_all, pass_on};
