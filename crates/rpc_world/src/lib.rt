//! The world of a simulation: nodes over a modelled network, as a script commands them.
#![tactic(auto)]

mod calling;
mod command;
mod connecting;
mod dropping;
mod finished;
mod landing;
mod making;
mod network;
mod pairing;
mod rating;
mod restarting;
mod running;
mod settling;
mod stepping;
mod working;
mod world;

pub use world::World;
