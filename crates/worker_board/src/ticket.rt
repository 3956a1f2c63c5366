//! What names an offer.
ghost use Rattle.std.specs.Prelude.{◌≡◌, ◌<◌};

use crate::word::MOST_OFFERS;
use std::marker::Model;

/// Names an offer: its place, and its generation, which counts the offers of the place from 0. It
/// may be copied and handed to many; one claim of it is won.
#[derive(Clone, Copy, Debug, PartialEq, Eq)]
pub struct Ticket {
    place: u32,
    generation: u64,
}

impl Model for Ticket {
    ghost use Rattle.std.specs.Prelude.{◌<◌};
    ghost use Rattle.worker_board.specs.Tickets.{OfferNo, offer_no};
    ghost use Rattle.worker_board.specs.declared.word.TheConstants.{MOST_OFFERS};

    ghost Value = { OfferNo };

    ghost view = { λ t. offer_no t.place t.generation };

    ghost invariant = { λ t. t.generation < MOST_OFFERS };

    ghost inverse = { λ t. record { place = t.place; generation = t.generation } };
}

impl Ticket {
    ghost use Rattle.worker_board.specs.Tickets.{offer_no};

    /// Names generation `generation` of the place.
    pub fn of(place: u32, generation: u64) -> Ticket
        requires { generation < MOST_OFFERS }
        ensures { result ≡ offer_no place generation }
    {
        Ticket { place, generation }
    }

    /// The place that was offered.
    pub fn place(&self) -> u32
        ensures { result ≡ self.now.place }
    {
        self.place
    }

    /// How many offers of the place came before.
    pub fn generation(&self) -> u64
        ensures value { result ≡ self.now.generation }
        ensures below { result < MOST_OFFERS }
    {
        self.generation
    }
}
