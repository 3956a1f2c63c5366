//! How a run of the program ended.
use crate::losses::Loss;
use rpc_tools::Status;
use udp_link::Trouble;

/// What is known of why a run ended so, beside its status.
#[derive(Clone, Copy)]
pub enum Cause {
    /// Nothing more.
    Untold,
    /// A word is no text.
    NoText,
    /// The link failed, in this way.
    Link(Trouble),
    /// The session of a load was lost, in this way.
    Session(Loss),
    /// Who read the output closed it.
    Closed,
}

impl Cause {
    /// What a link and a recorder tell of why a run ended so.
    pub fn of(status: Status, trouble: Option<Trouble>, loss: Option<Loss>) -> Cause {
        match (status, trouble, loss) {
            (Status::LinkFault, Some(trouble), _) => Cause::Link(trouble),
            (Status::CallsFailed, _, Some(loss)) => Cause::Session(loss),
            _ => Cause::Untold,
        }
    }
}

/// How a run of the program ended, and why.
#[derive(Clone, Copy)]
pub struct Ended {
    /// Its status.
    pub status: Status,
    /// What is told of why, in place of the status alone.
    pub cause: Cause,
}

impl Ended {
    /// The status tells all that is known.
    pub fn by(status: Status) -> Ended {
        Ended {
            status,
            cause: Cause::Untold,
        }
    }
}
