//! The rules of session control over plain data: what a control packet does at a node, what a
//! client session does about its own request, and why a session is refused or can't be closed. It
//! keeps no session, and knows nothing of calls, buffers or sending.
#![tactic(auto)]

mod answers;
mod control;
mod retry;

pub use answers::{CloseError, ConnectError};
pub use control::{Found, OtherEnd, OwnEnd, accepts, control_reply, control_row};
pub use retry::{own_request, retry_row};
