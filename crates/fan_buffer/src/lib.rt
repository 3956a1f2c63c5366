//! One message buffer that several endpoints send from. Its bytes are fixed when the fan is made.
//! Many may read it at one time, or one may take it out. No call takes memory, and none waits. That
//! a turn is ever won isn't promised.
//!
//! A value under a `counted_slot` is written only while nobody reads it, and each value that stands
//! there is empty or a buffer with the fan's bytes. So while a `Reading` is open nobody has the
//! right to write, and what it shows stays.
#![tactic(auto)]

mod fan;
mod reading;

pub use fan::{Fan, Taking};
pub use reading::Reading;
