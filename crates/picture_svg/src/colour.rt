//! What the colour of a mark tells.
use rpc_base::Event;

/// The colours of marks.
#[derive(Clone, Copy)]
pub enum Colour {
    /// What an application asks and learns.
    Green,
    /// What a server does.
    Blue,
    /// What a timer does.
    Orange,
    /// What goes wrong, or is refused.
    Red,
    /// What changes nothing.
    Grey,
}

impl Colour {
    /// The colour as SVG has it.
    pub fn code(self) -> &'static str {
        match self {
            Colour::Green => "#0a8f3c",
            Colour::Blue => "#0b57a4",
            Colour::Orange => "#c66400",
            Colour::Red => "#c00000",
            Colour::Grey => "#666666",
        }
    }

    /// The colour of an event's mark.
    pub fn of(event: &Event) -> Colour {
        if is_orange(event) {
            Colour::Orange
        } else if is_red(event) {
            Colour::Red
        } else if is_blue(event) {
            Colour::Blue
        } else if matches!(event, Event::Again { .. }) {
            Colour::Grey
        } else {
            Colour::Green
        }
    }
}

fn is_orange(event: &Event) -> bool {
    matches!(event, Event::Rolled { .. } | Event::Ticked { .. })
}

fn is_blue(event: &Event) -> bool {
    matches!(
        event,
        Event::Accepted { .. }
            | Event::Ended { .. }
            | Event::Given { .. }
            | Event::Worked { .. }
            | Event::Ran { .. }
    )
}

fn is_red(event: &Event) -> bool {
    matches!(
        event,
        Event::Restarted { .. }
            | Event::NconnectRing { .. }
            | Event::NconnectNumbers
            | Event::Declined { .. }
            | Event::Starved { .. }
            | Event::FailedNoRoom { .. }
            | Event::FailedNoAnswer { .. }
            | Event::NcloseState { .. }
            | Event::NcloseBusy { .. }
            | Event::Broken { .. }
            | Event::Nrate { .. }
            | Event::NcallTooLarge { .. }
            | Event::NcallState { .. }
            | Event::Unsent { .. }
            | Event::Overflowed { .. }
            | Event::Bad { .. }
            | Event::Dropped { .. }
            | Event::DonePeerLost { .. }
    )
}
