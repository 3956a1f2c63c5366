//! Why a call of a run fails.
ghost use Rattle.std.specs.Prelude.{◌≡◌, ◌≢◌};
ghost use Rattle.node_steps.specs.declared.refusals.AskError.TheVariants.{NoMemory as AskWanting};
ghost use Rattle.rpc_turns.specs.declared.error.RpcError.TheVariants.{Link, NoMemory as Wanting};
ghost use Rattle.session_mgmt.specs.declared.answers.ConnectError.TheVariants.{NoMemory as ConnectWanting};

use endpoint_loop::{AskError, LinkFault};
use memory_count::NoMemory;
use rpc_base::SessionState;
use rpc_outside::Failed;
use session_mgmt::{CloseError, ConnectError};
use std::error::Error;
use std::fmt;

/// Why a call of a run fails.
#[derive(Clone, Copy, Debug, PartialEq, Eq)]
pub enum RpcError {
    /// The link failed.
    Link,
    /// There was no memory.
    NoMemory,
    /// 65,535 numbers of sessions were used.
    NumbersSpent,
    /// The ring has no room for the credits of one more session.
    RingFull,
    /// The session isn't connected, but in this state.
    NotConnected { state: SessionState },
    /// So many calls of the session are pending.
    Busy { calls: u64 },
    /// The request has more than 1,048,576 bytes.
    TooLarge,
    /// All turns were made, and what was waited for didn't come.
    TurnsSpent,
}

impl fmt::Display for RpcError {
    fn fmt<W: fmt::Write>(&self, f: &mut fmt::Formatter<W>) -> fmt::Result {
        f.write_str(match self {
            RpcError::Link => "the link failed",
            RpcError::NoMemory => "out of memory",
            RpcError::NumbersSpent => "the numbers of sessions are spent",
            RpcError::RingFull => "the ring has no room for the credits",
            RpcError::NotConnected { .. } => "the session isn't connected",
            RpcError::Busy { .. } => "calls of the session are pending",
            RpcError::TooLarge => "the request is too large",
            RpcError::TurnsSpent => "nothing came in so many turns",
        })
    }
}

impl Error for RpcError {}

impl From<Failed> for RpcError {
    ghost from_gives = { λ _ e. e ≡ Link };

    fn from(_failed: Failed) -> RpcError {
        RpcError::Link
    }
}

impl From<LinkFault> for RpcError {
    ghost from_gives = { λ _ e. e ≡ Link };

    fn from(_fault: LinkFault) -> RpcError {
        RpcError::Link
    }
}

impl From<NoMemory> for RpcError {
    ghost from_gives = { λ _ e. e ≡ Wanting };

    fn from(_wanting: NoMemory) -> RpcError {
        RpcError::NoMemory
    }
}

impl From<ConnectError> for RpcError {
    ghost from_gives = { λ why e. (e ≢ Link) × (e ≡ Wanting → why ≡ ConnectWanting) };

    fn from(why: ConnectError) -> RpcError {
        match why {
            ConnectError::NumbersSpent => RpcError::NumbersSpent,
            ConnectError::RingFull { .. } => RpcError::RingFull,
            ConnectError::NoMemory => RpcError::NoMemory,
        }
    }
}

impl From<AskError> for RpcError {
    ghost from_gives = { λ why e. (e ≢ Link) × (e ≡ Wanting → why ≡ AskWanting) };

    fn from(why: AskError) -> RpcError {
        match why {
            AskError::TooLarge { .. } => RpcError::TooLarge,
            AskError::NotConnected { state } => RpcError::NotConnected { state },
            AskError::NoMemory => RpcError::NoMemory,
        }
    }
}

impl From<CloseError> for RpcError {
    ghost from_gives = { λ _ e. (e ≢ Link) × (e ≢ Wanting) };

    fn from(why: CloseError) -> RpcError {
        match why {
            CloseError::NotConnected { state } => RpcError::NotConnected { state },
            CloseError::Busy { calls } => RpcError::Busy { calls },
        }
    }
}
