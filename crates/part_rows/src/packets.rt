//! How rows write owners and packets: `a4.8` is request 8 of client session 4, `r4.8` that of
//! server session 4, and `a4.8.2` packet 2 of it.
use packet_rings::Entry;
use rpc_base::{Owner, Peer, RequestNo, SessionNo};
use std::fmt;
use std::fmt::Display;

// The request of this number.
fn request_of(number: u32) -> RequestNo {
    RequestNo::of((number % 8) as u8, u64::from(number / 8))
}

// The number that a word is, 0 where it is none.
fn number_of(word: Option<&str>) -> u16 {
    word.unwrap_or("").parse::<u16>().unwrap_or(0)
}

/// The owner that a word names; a packet's is that of its word.
pub fn owner_of(word: &str) -> Owner {
    let mut parts = word.trim_start_matches(['a', 'r']).split('.');
    let session = SessionNo(number_of(parts.next()));
    let request = request_of(u32::from(number_of(parts.next())));
    if word.starts_with('r') {
        Owner::Reply { session, request }
    } else {
        Owner::Ask { session, request }
    }
}

/// The packet that a word names. It goes to peer 1, and its bytes are in no pool.
pub fn packet_of(word: &str) -> Entry {
    Entry {
        owner: owner_of(word),
        number: number_of(word.split('.').nth(2)),
        place: None,
        peer: Peer(1),
    }
}

// The letter of an owner, its session and its request.
fn parts_of(owner: &Owner) -> (char, u16, u64) {
    match owner {
        Owner::Ask { session, request } => ('a', session.0, request.get()),
        Owner::Reply { session, request } => ('r', session.0, request.get()),
        Owner::Control => ('c', 0, 0),
    }
}

/// A packet as rows write it, if there is one.
#[derive(Clone, Copy)]
pub struct Told(pub Option<Entry>);

impl Display for Told {
    fn fmt<W: fmt::Write>(&self, f: &mut fmt::Formatter<W>) -> fmt::Result {
        let Some(entry) = &self.0 else {
            return f.write_str("none");
        };
        let (letter, session, request) = parts_of(&entry.owner);
        write!(f, "{letter}{session}.{request}.{}", entry.number)
    }
}
