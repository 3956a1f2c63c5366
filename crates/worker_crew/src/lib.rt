//! Who works background jobs: one thread, which works a job when it is told to, or a crew of hands.
#![tactic(auto)]

mod crew;
mod dispatcher;
mod hand;
mod leftover;
mod local;
mod manner;
mod spawner;
mod thread_spawner;
mod workers;

pub use crew::{Crew, MOST_HANDS};
pub use hand::Hand;
pub use leftover::Leftover;
pub use local::LocalWorkers;
pub use spawner::{Named, SerialSpawner, Spawner};
pub use thread_spawner::{Child, Launcher, SameHand, ThreadSpawner, launch};
pub use workers::{Finished, Workers};
