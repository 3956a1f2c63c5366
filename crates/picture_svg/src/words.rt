//! The words beside the mark of each event.
use rpc_base::{DropReason, Event, SessionState};

/// The words of a mark, with the numbers among them.
#[derive(Clone, Copy)]
pub enum Words {
    Nothing,
    Plain(&'static str),
    One(&'static str, u64, &'static str),
    Two(&'static str, u64, &'static str, u64, &'static str),
    /// A number, and the bytes of the fact behind.
    Bytes(&'static str, u64, &'static str),
    /// A handler's request and answer.
    Handler,
    /// What was refused, in which state.
    Refused(&'static str, SessionState),
    /// A packet was dropped for this reason.
    Dropped(DropReason),
}

use Words::{Bytes, Dropped, Handler, Nothing, One, Plain, Refused, Two};

/// The words beside the mark of an event.
pub fn words_of(event: &Event) -> Words {
    match event {
        Event::Restarted { life } => One("restarts, in life ", u64::from(*life), ""),
        Event::Opened {
            session,
            credits,
            ..
        } => Two(
            "opens session ",
            u64::from(session.0),
            ", ",
            u64::from(*credits),
            " credits",
        ),
        Event::NconnectRing { credits, .. } => One(
            "connect refused: no room for ",
            u64::from(*credits),
            " credits",
        ),
        Event::NconnectNumbers => Plain("connect refused: no session number is left"),
        Event::Accepted {
            session,
            credits,
            ..
        } => Two(
            "accepts session ",
            u64::from(session.0),
            ", ",
            u64::from(*credits),
            " credits",
        ),
        Event::Declined { .. } => Plain("declines a session: no room"),
        Event::Starved { .. } => Plain("declines a session: no memory"),
        Event::Connected { session, .. } => {
            One("session ", u64::from(session.0), " is connected")
        }
        Event::FailedNoRoom { session } => {
            One("session ", u64::from(session.0), " failed: no room")
        }
        Event::FailedNoAnswer { session } => {
            One("session ", u64::from(session.0), " failed: no answer")
        }
        Event::Closing { session } => One("closes session ", u64::from(session.0), ""),
        Event::NcloseState { state, .. } => Refused("close", *state),
        Event::NcloseBusy { calls, .. } => One("close refused: ", *calls, " calls pending"),
        Event::ClosedHeard { session } => One("session ", u64::from(session.0), " is closed"),
        Event::ClosedUnheard { session } => {
            One("session ", u64::from(session.0), " is closed, unheard")
        }
        Event::Ended { session } => One("session ", u64::from(session.0), " is over"),
        Event::Broken { session } => One("session ", u64::from(session.0), " lost its peer"),
        Event::Rated { session, rate } => Two(
            "session ",
            u64::from(session.0),
            " sends at ",
            u64::from(*rate),
            " bytes/ms",
        ),
        Event::Nrate { state, .. } => Refused("rate", *state),
        Event::Asked { call, .. } => Bytes("asks call ", call.0, ": "),
        Event::NcallTooLarge { len, .. } => {
            One("call refused: ", u64::from(*len), " bytes are too many")
        }
        Event::NcallState { state, .. } => Refused("call", *state),
        Event::Unsent { .. } => Plain("the link takes no control packet"),
        Event::Overflowed { .. } => Plain("no room in the receive ring"),
        Event::Bad { .. } => Plain("no packet"),
        Event::Again { number, .. } => {
            One("packet ", u64::from(*number), " again: answered, not run")
        }
        Event::Dropped { reason } => Dropped(*reason),
        Event::Given { request, .. } => One("request ", request.get(), " becomes a job"),
        Event::Worked { request, .. } => One("the job of request ", request.get(), " is worked"),
        Event::Ran { .. } => Handler,
        Event::Rolled { got, .. } => { One("timeout: goes back to packet ", u64::from(*got), "") }
        Event::DoneOk { call } => Bytes("call ", call.0, " ends Ok: "),
        Event::DoneTooSmall { call, size } => Two(
            "call ",
            call.0,
            " ends TooSmall: ",
            u64::from(*size),
            " bytes",
        ),
        Event::DonePeerLost { call } => One("call ", call.0, " ends PeerLost"),
        Event::Ticked { by } => One("+", u64::from(*by), " µs"),
        Event::Made { .. }
        | Event::PairedClient { .. }
        | Event::PairedServer { .. }
        | Event::Begun { .. }
        | Event::Posted { .. }
        | Event::Flushed { .. }
        | Event::Sent { .. }
        | Event::Arrived { .. }
        | Event::Heard
        | Event::Took { .. }
        | Event::Polled { .. }
        | Event::Missed { .. }
        | Event::Carried { .. }
        | Event::Lost { .. }
        | Event::Repeated { .. } => Nothing,
    }
}
