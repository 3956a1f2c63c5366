//! What a Request or RFR does.
use packet_rings::Entry;
use rpc_base::DropReason;
use worker_board::Parcel;

/// What a Request or RFR did, by the server table. A reply is to be put into the transmit ring.
#[derive(Debug, Drop)]
pub enum Step {
    /// It was taken, and has a reply at once.
    Took { reply: Option<Entry> },
    /// It was taken before, and is answered once more.
    Again { reply: Entry },
    /// It was taken as the last packet of its request, whose handler ran.
    Ran { reply: Entry },
    /// It was taken as the last packet of its request, which is to be given to a worker.
    Give(Parcel),
    Dropped(DropReason),
}
