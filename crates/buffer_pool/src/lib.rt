//! The pool of an endpoint's message buffers: places that are empty, full with a buffer and a count
//! of references, or lent. It knows nothing of who holds a place, and copies no buffer.
#![tactic(auto)]

mod held;
mod lowest;
mod places;
mod pool;
mod tree;
mod usage;

pub use held::Held;
pub use pool::BufferPool;
pub use usage::Use;
