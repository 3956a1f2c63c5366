//! Whose packet an entry of a queue is.
ghost use Rattle.std.specs.Prelude.{◌≡◌};
ghost use Rattle.rpc_base.specs.Owners.{same_owner};

use crate::numbers::SessionNo;
use crate::request::RequestNo;

/// Names whose packet an entry is.
#[derive(Clone, Copy, Debug, PartialEq, Eq)]
pub enum Owner {
    /// A client's call, by its client session and request number.
    Ask {
        session: SessionNo,
        request: RequestNo,
    },
    /// A server's slot, by its server session and request number.
    Reply {
        session: SessionNo,
        request: RequestNo,
    },
    /// A packet of session control.
    Control,
}

impl Owner {
    /// Tells whether both are the same call, or the same request of a server session.
    pub fn is_same(self, other: Owner) -> bool
        ensures { result ≡ same_owner self other }
    {
        match self {
            Owner::Ask { session, request } => match other {
                Owner::Ask {
                    session: client,
                    request: number,
                } => { session.0 == client.0 && request.get() == number.get() }
                _ => false,
            },
            Owner::Reply { session, request } => match other {
                Owner::Reply {
                    session: server,
                    request: number,
                } => { session.0 == server.0 && request.get() == number.get() }
                _ => false,
            },
            Owner::Control => matches!(other, Owner::Control),
        }
    }
}
