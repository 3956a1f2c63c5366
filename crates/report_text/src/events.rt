//! The shape of the line of each event: "Events and the report" of docs/FORMATS.md, row by row.
ghost use Rattle.std.specs.Prelude.{◌≡◌, ℕ, List};
ghost use Rattle.report_text.specs.Shape.{shape_text, tail_of, with_tail};
ghost use Rattle.report_text.specs.Text.{event_text};

use crate::shape::Shape::{
    self, Datagram, Ending, Entry, Five, Four, One, Reason, State, Three, Two, Word,
};
use crate::shape::Tail;
use rpc_base::Event;

/// Which bytes of its fact the line of an event ends with.
pub fn tail_for(event: Event) -> Tail
    ensures { result ≡ tail_of event }
{
    match event {
        Event::Asked { .. }
        | Event::Unsent { .. }
        | Event::Arrived { .. }
        | Event::Overflowed { .. }
        | Event::Bad { .. }
        | Event::DoneOk { .. } => Tail::First,
        Event::Sent { .. } | Event::Ran { .. } => Tail::Both,
        Event::Made { .. }
        | Event::Restarted { .. }
        | Event::Opened { .. }
        | Event::PairedClient { .. }
        | Event::PairedServer { .. }
        | Event::NconnectRing { .. }
        | Event::NconnectNumbers
        | Event::Accepted { .. }
        | Event::Declined { .. }
        | Event::Starved { .. }
        | Event::Connected { .. }
        | Event::FailedNoRoom { .. }
        | Event::FailedNoAnswer { .. }
        | Event::Closing { .. }
        | Event::NcloseState { .. }
        | Event::NcloseBusy { .. }
        | Event::ClosedHeard { .. }
        | Event::ClosedUnheard { .. }
        | Event::Ended { .. }
        | Event::Broken { .. }
        | Event::Rated { .. }
        | Event::Nrate { .. }
        | Event::NcallTooLarge { .. }
        | Event::NcallState { .. }
        | Event::Begun { .. }
        | Event::Posted { .. }
        | Event::Flushed { .. }
        | Event::Heard
        | Event::Took { .. }
        | Event::Again { .. }
        | Event::Dropped { .. }
        | Event::Given { .. }
        | Event::Worked { .. }
        | Event::Rolled { .. }
        | Event::DoneTooSmall { .. }
        | Event::DonePeerLost { .. }
        | Event::Polled { .. }
        | Event::Missed { .. }
        | Event::Carried { .. }
        | Event::Lost { .. }
        | Event::Repeated { .. }
        | Event::Ticked { .. } => Tail::Nothing,
    }
}

/// The words and numbers of the line of an event.
#[tactic(auto, unfolding(crate::specs::Text::event_text))]
pub fn shape_for(event: Event) -> Shape
    ensures { (first second : List ℕ) → event_text event first second
        ≡ with_tail (tail_of event) (shape_text result) first second }
{
    match event {
        Event::Made { ring } => One(("made ring ", u64::from(ring))),
        Event::Restarted { life } => One(("restarted ", u64::from(life))),
        Event::Opened {
            session,
            peer,
            credits,
        } => Three(
            ("opened ", u64::from(session.0)),
            (" peer ", u64::from(peer.0)),
            (" credits ", u64::from(credits)),
        ),
        Event::PairedClient {
            session,
            peer,
            server,
            credits,
            life,
        } => Five(
            ("paired client ", u64::from(session.0)),
            (" peer ", u64::from(peer.0)),
            (" with ", u64::from(server.0)),
            (" credits ", u64::from(credits)),
            (" life ", u64::from(life)),
        ),
        Event::PairedServer {
            session,
            peer,
            client,
            credits,
            life,
        } => Five(
            ("paired server ", u64::from(session.0)),
            (" peer ", u64::from(peer.0)),
            (" with ", u64::from(client.0)),
            (" credits ", u64::from(credits)),
            (" life ", u64::from(life)),
        ),
        Event::NconnectRing {
            shares,
            credits,
            ring,
        } => Three(
            ("nconnect ring ", u64::from(shares)),
            (" ", u64::from(credits)),
            (" ", u64::from(ring)),
        ),
        Event::NconnectNumbers => Word("nconnect numbers"),
        Event::Accepted {
            session,
            peer,
            client,
            credits,
            life,
        } => Five(
            ("accepted ", u64::from(session.0)),
            (" peer ", u64::from(peer.0)),
            (" for ", u64::from(client.0)),
            (" credits ", u64::from(credits)),
            (" life ", u64::from(life)),
        ),
        Event::Declined {
            peer,
            client,
            credits,
        } => Three(
            ("declined peer ", u64::from(peer.0)),
            (" for ", u64::from(client.0)),
            (" credits ", u64::from(credits)),
        ),
        Event::Starved {
            peer,
            client,
            credits,
        } => Three(
            ("starved peer ", u64::from(peer.0)),
            (" for ", u64::from(client.0)),
            (" credits ", u64::from(credits)),
        ),
        Event::Connected {
            session,
            server,
            life,
        } => Three(
            ("connected ", u64::from(session.0)),
            (" with ", u64::from(server.0)),
            (" life ", u64::from(life)),
        ),
        Event::FailedNoRoom { session } => { Ending(("failed ", u64::from(session.0)), " noroom") }
        Event::FailedNoAnswer { session } => {
            Ending(("failed ", u64::from(session.0)), " noanswer")
        }
        Event::Closing { session } => One(("closing ", u64::from(session.0))),
        Event::NcloseState { session, state } => { State(("nclose ", u64::from(session.0)), state) }
        Event::NcloseBusy { session, calls } => {
            Two(("nclose ", u64::from(session.0)), (" busy ", calls))
        }
        Event::ClosedHeard { session } => Ending(("closed ", u64::from(session.0)), " heard"),
        Event::ClosedUnheard { session } => {
            Ending(("closed ", u64::from(session.0)), " unheard")
        }
        Event::Ended { session } => One(("ended ", u64::from(session.0))),
        Event::Broken { session } => One(("broken ", u64::from(session.0))),
        Event::Rated { session, rate } => {
            Two(("rated ", u64::from(session.0)), (" ", u64::from(rate)))
        }
        Event::Nrate { session, state } => State(("nrate ", u64::from(session.0)), state),
        Event::Asked {
            call,
            session,
            req_type,
            room,
        } => Four(
            ("asked ", call.0),
            (" on ", u64::from(session.0)),
            (" type ", u64::from(req_type)),
            (" room ", u64::from(room)),
        ),
        Event::NcallTooLarge { session, len } => Two(
            ("ncall ", u64::from(session.0)),
            (" toolarge ", u64::from(len)),
        ),
        Event::NcallState { session, state } => { State(("ncall ", u64::from(session.0)), state) }
        Event::Begun { call, request } => Two(("begun ", call.0), (" as ", request.get())),
        Event::Posted { owner, number } => Entry("posted ", owner, u64::from(number)),
        Event::Flushed { owner, number } => Entry("flushed ", owner, u64::from(number)),
        Event::Sent {
            peer,
            owner,
            number,
        } => Datagram(u64::from(peer.0), owner, u64::from(number)),
        Event::Unsent { peer } => One(("unsent ", u64::from(peer.0))),
        Event::Arrived { peer } => One(("arrived ", u64::from(peer.0))),
        Event::Overflowed { peer } => One(("overflowed ", u64::from(peer.0))),
        Event::Bad { peer } => One(("bad ", u64::from(peer.0))),
        Event::Heard => Word("heard"),
        Event::Took { owner, number } => Entry("took ", owner, u64::from(number)),
        Event::Again { owner, number } => Entry("again ", owner, u64::from(number)),
        Event::Dropped { reason } => Reason(reason),
        Event::Given { session, request } => {
            Two(("given ", u64::from(session.0)), (" ", request.get()))
        }
        Event::Worked { session, request } => {
            Two(("worked ", u64::from(session.0)), (" ", request.get()))
        }
        Event::Ran {
            session,
            request,
            req_type,
        } => Three(
            ("ran ", u64::from(session.0)),
            (" ", request.get()),
            (" type ", u64::from(req_type)),
        ),
        Event::Rolled { call, posted, got } => Three(
            ("rolled ", call.0),
            (" ", u64::from(posted)),
            (" ", u64::from(got)),
        ),
        Event::DoneOk { call } => Ending(("done ", call.0), " ok"),
        Event::DoneTooSmall { call, size } => {
            Two(("done ", call.0), (" toosmall ", u64::from(size)))
        }
        Event::DonePeerLost { call } => Ending(("done ", call.0), " peerlost"),
        Event::Polled { now } => One(("polled ", now)),
        Event::Missed { number } => One(("missed ", u64::from(number))),
        Event::Carried { copy } => One(("carried ", u64::from(copy))),
        Event::Lost { copy } => One(("lost ", u64::from(copy))),
        Event::Repeated { copy } => One(("repeated ", u64::from(copy))),
        Event::Ticked { by } => One(("ticked ", u64::from(by))),
    }
}
