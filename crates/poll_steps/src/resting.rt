//! Client sessions of which a poll notes nothing.
ghost use Rattle.std.specs.Prelude.{◌≡◌};
ghost use Rattle.poll_steps.specs.Resting.{asks_nothing, is_at_rest, rests};

use rpc_base::SessionState;
use rpc_laws::{Client, Lists};

// Whether a session in this state has no request of its own to send.
fn asks_nothing(state: SessionState) -> bool
    ensures { result ≡ asks_nothing state }
{
    !matches!(state, SessionState::Connecting | SessionState::Closing)
}

// Whether a session has neither a request of its own to send nor calls.
fn is_at_rest(client: &Client) -> bool
    ensures { result ≡ is_at_rest client.now }
{
    asks_nothing(client.state) && client.calls.is_empty()
}

/// Whether a poll notes nothing of client session `i`, whatever its clock: it has neither a request
/// of its own to send nor calls, or isn't there. It is asked first, since a node may have many
/// sessions, most of which rest.
pub fn rests(lists: &Lists, i: usize) -> bool
    ensures { result ≡ rests i lists.now }
{
    match lists.clients.as_slice().get(i) {
        None => true,
        Some(client) => is_at_rest(client),
    }
}
