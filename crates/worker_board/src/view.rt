//! What a seat of the board knows. No value of these types is ever made: contracts see them alone.
use crate::Parcel;
use crate::ticket::Ticket;
use rpc_base::{RequestNo, SessionNo};
use std::collections::LinkedList;

/// What a worker may not change of a parcel.
pub struct Job {
    pub session: SessionNo,
    pub request: RequestNo,
    pub req_type: u8,
    pub ask: LinkedList<u8>,
}

/// How far the dispatcher is with an offer.
pub enum End {
    Open,
    Collected,
    TakenBack,
}

/// An offer: the whole parcel, with all bytes of both its buffers, as it was offered.
pub struct Offer {
    pub parcel: Parcel,
    pub end: End,
}

/// A claim that a hand has won and not yet finished.
pub struct Claim {
    pub ticket: Ticket,
    pub job: Job,
}

/// What a step left the word of a place at.
pub struct Note {
    pub place: u32,
    pub word: u64,
}

/// Who sits at a seat. A hand that is back leaves a spent seat.
pub enum Role {
    Dispatcher,
    Hand(u8),
    Spent,
}

/// What a seat knows.
pub struct View {
    pub role: Role,
    /// Inside a call, one more than the place whose slot is out with the seat; else 0.
    pub turn: u64,
    /// What each step of the seat left a word at.
    pub notes: LinkedList<Note>,
    /// The dispatcher's: of each place its offers, newest first.
    pub ledger: LinkedList<LinkedList<Offer>>,
    /// The dispatcher's: each job that it looked at and found unfinished.
    pub misses: LinkedList<Ticket>,
    /// Each take-back, or claim, that found another word.
    pub lost: LinkedList<Ticket>,
    /// The dispatcher's: the lost claims of the hands that are back.
    pub lost_claims: LinkedList<Ticket>,
    /// The dispatcher's: the numbers of the hands that are out.
    pub out: LinkedList<u8>,
    /// The dispatcher's: the numbers of all hands so far, and that of the next.
    pub used: LinkedList<u8>,
    pub next: u8,
    /// A hand's claims.
    pub held: LinkedList<Claim>,
    /// What a hand worked; of the dispatcher, what the hands worked that are back.
    pub runs: LinkedList<Ticket>,
}
