//! Kinds of events: those that only a poll makes, and those that end one.
ghost use Rattle.std.specs.Prelude.{◌≡◌};
ghost use Rattle.front_laws.specs.Whole.{ends_poll, is_polls};

use rpc_base::Event;

/// Whether only a poll makes such an event.
pub fn is_polls(event: &Event) -> bool
    ensures { result ≡ is_polls event.now }
{
    match event {
        Event::Begun { .. }
        | Event::Posted { .. }
        | Event::Flushed { .. }
        | Event::Sent { .. }
        | Event::Unsent { .. }
        | Event::Heard
        | Event::Took { .. }
        | Event::Again { .. }
        | Event::Dropped { .. }
        | Event::Given { .. }
        | Event::Ran { .. }
        | Event::Rolled { .. }
        | Event::DoneOk { .. }
        | Event::DoneTooSmall { .. }
        | Event::DonePeerLost { .. }
        | Event::Accepted { .. }
        | Event::Declined { .. }
        | Event::Starved { .. }
        | Event::Connected { .. }
        | Event::FailedNoRoom { .. }
        | Event::FailedNoAnswer { .. }
        | Event::ClosedHeard { .. }
        | Event::ClosedUnheard { .. }
        | Event::Ended { .. }
        | Event::Broken { .. } => true,
        Event::Made { .. }
        | Event::Restarted { .. }
        | Event::Opened { .. }
        | Event::PairedClient { .. }
        | Event::PairedServer { .. }
        | Event::NconnectRing { .. }
        | Event::NconnectNumbers
        | Event::Closing { .. }
        | Event::NcloseState { .. }
        | Event::NcloseBusy { .. }
        | Event::Rated { .. }
        | Event::Nrate { .. }
        | Event::Asked { .. }
        | Event::NcallTooLarge { .. }
        | Event::NcallState { .. }
        | Event::Arrived { .. }
        | Event::Overflowed { .. }
        | Event::Bad { .. }
        | Event::Worked { .. }
        | Event::Polled { .. }
        | Event::Missed { .. }
        | Event::Carried { .. }
        | Event::Lost { .. }
        | Event::Repeated { .. }
        | Event::Ticked { .. } => false,
    }
}

/// Whether no poll is open after it: it ends one, or a life of its node begins.
pub fn ends_poll(event: &Event) -> bool
    ensures { result ≡ ends_poll event.now }
{
    matches!(event, Event::Polled { .. } | Event::Restarted { .. })
}
