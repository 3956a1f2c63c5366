//! Everything that can happen at a node or in the network.
use crate::numbers::{CallNo, Peer, SessionNo};
use crate::owner::Owner;
use crate::request::RequestNo;
use crate::state::{DropReason, SessionState};

/// What happened, in numbers alone; the bytes stand beside it in the fact.
#[derive(Clone, Copy, Debug)]
pub enum Event {
    /// The endpoint was made.
    Made {
        ring: u32,
    },
    /// The node was restarted: its endpoint is a new one, and this is its life.
    Restarted {
        life: u32,
    },
    /// A connect was accepted by the endpoint.
    Opened {
        session: SessionNo,
        peer: Peer,
        credits: u16,
    },
    /// A client end was made by pairing; the life is that of the other end.
    PairedClient {
        session: SessionNo,
        peer: Peer,
        server: SessionNo,
        credits: u16,
        life: u32,
    },
    /// A server end was made by pairing; the life is that of the other end.
    PairedServer {
        session: SessionNo,
        peer: Peer,
        client: SessionNo,
        credits: u16,
        life: u32,
    },
    /// A connect was refused: the credits do not fit into the ring.
    NconnectRing {
        shares: u32,
        credits: u32,
        ring: u32,
    },
    /// A connect was refused: all session numbers are used.
    NconnectNumbers,
    /// A server session was made by a connect request, whose sender has this life.
    Accepted {
        session: SessionNo,
        peer: Peer,
        client: SessionNo,
        credits: u16,
        life: u32,
    },
    /// A connect request found no room at the server.
    Declined {
        peer: Peer,
        client: SessionNo,
        credits: u16,
    },
    /// A connect request found no memory at the server.
    Starved {
        peer: Peer,
        client: SessionNo,
        credits: u16,
    },
    /// The client session is connected, with a server of this life.
    Connected {
        session: SessionNo,
        server: SessionNo,
        life: u32,
    },
    /// The client session failed: the server has no room.
    FailedNoRoom {
        session: SessionNo,
    },
    /// The client session failed: no answer came.
    FailedNoAnswer {
        session: SessionNo,
    },
    /// A disconnect was accepted.
    Closing {
        session: SessionNo,
    },
    /// A disconnect was refused in this state.
    NcloseState {
        session: SessionNo,
        state: SessionState,
    },
    /// A disconnect was refused: calls are pending.
    NcloseBusy {
        session: SessionNo,
        calls: u64,
    },
    /// The client session is closed, as the server confirmed.
    ClosedHeard {
        session: SessionNo,
    },
    /// The client session is closed; the server was not heard.
    ClosedUnheard {
        session: SessionNo,
    },
    /// The server session is over.
    Ended {
        session: SessionNo,
    },
    /// The client session lost its peer.
    Broken {
        session: SessionNo,
    },
    /// A rate was set.
    Rated {
        session: SessionNo,
        rate: u32,
    },
    /// A rate was refused in this state.
    Nrate {
        session: SessionNo,
        state: SessionState,
    },
    /// A call was accepted; `first` is its bytes.
    Asked {
        call: CallNo,
        session: SessionNo,
        req_type: u8,
        room: u32,
    },
    /// A call was refused: its request is too large.
    NcallTooLarge {
        session: SessionNo,
        len: u32,
    },
    /// A call was refused in this state.
    NcallState {
        session: SessionNo,
        state: SessionState,
    },
    /// The call has this request number.
    Begun {
        call: CallNo,
        request: RequestNo,
    },
    /// The packet was put into the transmit ring or the pacer.
    Posted {
        owner: Owner,
        number: u16,
    },
    /// The packet was taken out unsent.
    Flushed {
        owner: Owner,
        number: u16,
    },
    /// One datagram was handed to the link: `first` is its head, `second` its body. The number is 0
    /// for control.
    Sent {
        peer: Peer,
        owner: Owner,
        number: u16,
    },
    /// The link did not take a control packet; `first` is its head.
    Unsent {
        peer: Peer,
    },
    /// A datagram stands in the ring or inbox; `first` is its bytes.
    Arrived {
        peer: Peer,
    },
    /// The ring or inbox was full; `first` is the bytes.
    Overflowed {
        peer: Peer,
    },
    /// The datagram is no packet; `first` is its bytes.
    Bad {
        peer: Peer,
    },
    /// The oldest control packet was handled.
    Heard,
    /// The oldest data packet was taken.
    Took {
        owner: Owner,
        number: u16,
    },
    /// The oldest data packet was answered again.
    Again {
        owner: Owner,
        number: u16,
    },
    /// The oldest data packet was dropped.
    Dropped {
        reason: DropReason,
    },
    /// The request became a background job.
    Given {
        session: SessionNo,
        request: RequestNo,
    },
    /// The job was worked.
    Worked {
        session: SessionNo,
        request: RequestNo,
    },
    /// The handler's answer to `first` is `second`.
    Ran {
        session: SessionNo,
        request: RequestNo,
        req_type: u8,
    },
    /// The call was rolled back from `posted` to `got`.
    Rolled {
        call: CallNo,
        posted: u16,
        got: u16,
    },
    /// The call ended well; `first` is the answer.
    DoneOk {
        call: CallNo,
    },
    /// The call ended: the answer does not fit the response buffer.
    DoneTooSmall {
        call: CallNo,
        size: u32,
    },
    /// The call ended: its session lost its peer.
    DonePeerLost {
        call: CallNo,
    },
    /// A poll ended, at this clock of the endpoint in microseconds.
    Polled {
        now: u64,
    },
    /// There is no such job, or no such copy.
    Missed {
        number: u32,
    },
    /// The copy was taken out of flight to be delivered.
    Carried {
        copy: u32,
    },
    /// The copy was taken out of flight.
    Lost {
        copy: u32,
    },
    /// The copy is in flight once more.
    Repeated {
        copy: u32,
    },
    /// The clock of the world went on by this many microseconds.
    Ticked {
        by: u32,
    },
}
