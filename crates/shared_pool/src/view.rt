//! What a seat of a pool knows. No value of these types is ever made: contracts see them alone.
use crate::loan::Loan;
use std::collections::LinkedList;

/// What a step found the word of a place at.
pub struct Note {
    pub place: u32,
    pub word: u64,
}

/// What a seat knows.
pub struct View {
    /// The capacity of the pool's buffers.
    pub capacity: u32,
    /// Inside a call, one more than the place whose slot is out with the seat; else 0.
    pub turn: u64,
    /// What each look and each lost exchange found, newest first.
    pub notes: LinkedList<Note>,
    /// The loans that the seat holds.
    pub held: LinkedList<Loan>,
    /// All loans that the seat got, and all that it gave back.
    pub lent: LinkedList<Loan>,
    pub back: LinkedList<Loan>,
}
