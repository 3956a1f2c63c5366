//! Workers whose jobs the application answers, through handles. A desk gives a handle for each
//! job, in order of giving; a handle is spent once, by an answer that fits, by the duty, or by
//! giving it up. Only `Desk::new` takes memory.
#![tactic(auto)]

mod checked;
mod desk;
mod job;
mod law;
mod workers;

pub use checked::Checked;
pub use desk::Desk;
pub use job::Deferred;
pub use law::desk_law;
