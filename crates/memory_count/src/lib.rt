//! Memory, and how often it was refused: all memory that the project takes is asked for here, so
//! that a call which answers that there was none can say that some was refused.
#![tactic(auto)]

mod memory;
mod no_memory;

pub use memory::Memory;
pub use no_memory::NoMemory;
