//! Which facts of a node are drawn by themselves.
ghost use Rattle.std.specs.Prelude.{◌≡◌};
ghost use Rattle.sequence_picture.specs.Drawing.{is_marked};

use rpc_base::Event;

/// Whether an event of a node is drawn: what an application does and learns, what a handler does,
/// what a timer does, a restart, and what comes of a packet that isn't just taken.
pub fn is_marked(event: &Event) -> bool
    ensures { result ≡ is_marked event.now }
{
    match event {
        Event::Restarted { .. }
        | Event::Opened { .. }
        | Event::NconnectRing { .. }
        | Event::NconnectNumbers
        | Event::Accepted { .. }
        | Event::Declined { .. }
        | Event::Starved { .. }
        | Event::Connected { .. }
        | Event::FailedNoRoom { .. }
        | Event::FailedNoAnswer { .. }
        | Event::Closing { .. }
        | Event::NcloseState { .. }
        | Event::NcloseBusy { .. }
        | Event::ClosedHeard { .. }
        | Event::ClosedUnheard { .. }
        | Event::Ended { .. }
        | Event::Broken { .. }
        | Event::Rated { .. }
        | Event::Nrate { .. }
        | Event::Asked { .. }
        | Event::NcallTooLarge { .. }
        | Event::NcallState { .. }
        | Event::Unsent { .. }
        | Event::Overflowed { .. }
        | Event::Bad { .. }
        | Event::Again { .. }
        | Event::Dropped { .. }
        | Event::Given { .. }
        | Event::Worked { .. }
        | Event::Ran { .. }
        | Event::Rolled { .. }
        | Event::DoneOk { .. }
        | Event::DoneTooSmall { .. }
        | Event::DonePeerLost { .. } => true,
        Event::Made { .. }
        | Event::PairedClient { .. }
        | Event::PairedServer { .. }
        | Event::Begun { .. }
        | Event::Posted { .. }
        | Event::Flushed { .. }
        | Event::Sent { .. }
        | Event::Arrived { .. }
        | Event::Heard
        | Event::Took { .. }
        | Event::Polled { .. }
        | Event::Missed { .. }
        | Event::Carried { .. }
        | Event::Lost { .. }
        | Event::Repeated { .. }
        | Event::Ticked { .. } => false,
    }
}
