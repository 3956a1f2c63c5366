//! The peers of a link: their addresses, by their numbers, and how long a datagram to each may be.
ghost use Rattle.std.specs.Prelude.{◌≤◌, ◌<◌, length, IfSome};

use crate::address::Address;
use memory_count::Memory;
use packet_frames::{LEAST_FRAME_BYTES, MOST_FRAME_BYTES, USUAL_FRAME_BYTES};
use packet_header::{FIRST_LIFE, Life};
use rpc_base::Peer;
use std::alloc::Global;

/// A link knows no more peers at a time.
pub const MOST_PEERS: usize = 256;

/// What a number stands for, and whether packets to its peer may go several in one datagram.
#[derive(Clone, Copy, Debug, PartialEq, Eq)]
enum Standing {
    /// No peer has the number.
    Free,
    /// Each packet to the peer goes alone.
    Alone,
    /// A frame came from the peer, so it opens them: of so many bytes, the most that are sent to
    /// it.
    Came(u32),
    /// It was named as one that opens frames of at most so many bytes.
    Named(u32),
}

/// What is known of a number.
#[derive(Clone, Copy)]
struct Place {
    address: Address,
    standing: Standing,
    /// Whether an application named it: then it keeps its number.
    is_kept: bool,
    /// The greatest life in which a peer of this number asked to connect, 0 before. An endpoint
    /// knows peers by their numbers, and answers none that asks in a lower life.
    told: u32,
}

impl Place {
    /// Nobody has the number, and nobody had it.
    fn new() -> Place {
        Place {
            address: Address::none(),
            standing: Standing::Free,
            is_kept: false,
            told: 0,
        }
    }

    // Whether the number may become that of a peer that asks in this life.
    fn is_free_for(&self, life: Life) -> bool {
        self.standing == Standing::Free && self.told <= life.0
    }
}

/// The peers by their numbers, and the numbers that are or were a peer's in order of the addresses.
#[derive(Drop)]
pub struct Peers {
    places: Vec<Place>,
    sorted: Vec<u8>,
    /// Whose datagram came last.
    last: Peer,
}

impl Peers {
    /// No peer yet.
    pub fn new(alloc: Global) -> Peers {
        Peers {
            places: Vec::new(alloc),
            sorted: Vec::new(alloc),
            last: Peer(0),
        }
    }

    // What is known of a peer, if the number is one's.
    fn place(&self, peer: Peer) -> Option<&Place> {
        let place = self.places.get(usize::from(peer.0))?;
        if place.standing == Standing::Free {
            None
        } else {
            Some(place)
        }
    }

    /// The address of a peer, if there is one of that number.
    pub fn address(&self, peer: Peer) -> Option<&Address> {
        let place = self.place(peer)?;
        Some(&place.address)
    }

    /// The most bytes of a frame to a peer: 0 where each packet goes alone.
    pub fn most(&self, peer: Peer) -> u32
        ensures { result ≤ MOST_FRAME_BYTES }
    {
        let Some(place) = self.place(peer) else {
            return 0;
        };
        match place.standing {
            Standing::Came(bytes) | Standing::Named(bytes) => bytes.min(MOST_FRAME_BYTES),
            Standing::Free | Standing::Alone => 0,
        }
    }

    /// Frames to a peer may have so many bytes, within the limits of a frame.
    pub fn name(&mut self, peer: Peer, bytes: u32) {
        let bytes = bytes.max(LEAST_FRAME_BYTES).min(MOST_FRAME_BYTES);
        if self.place(peer).is_some() {
            self.stand(peer, Standing::Named(bytes));
        }
    }

    /// A frame of so many bytes came from a peer. What was named stays.
    pub fn note_frame(&mut self, peer: Peer, bytes: usize) {
        let bytes = u32::try_from(bytes).unwrap_or(MOST_FRAME_BYTES);
        let Some(place) = self.place(peer) else {
            return;
        };
        let most = match place.standing {
            Standing::Came(most) => most,
            Standing::Alone => USUAL_FRAME_BYTES,
            Standing::Named(_) | Standing::Free => return,
        };
        self.stand(peer, Standing::Came(most.max(bytes)));
    }

    fn stand(&mut self, peer: Peer, standing: Standing) {
        if let Some(place) = self.places.get_mut(usize::from(peer.0)) {
            place.standing = standing;
        }
    }

    // Where the number of an address stands in their order, or where it would stand.
    fn find(&self, address: &Address) -> Result<usize, usize> {
        let places = &self.places;
        let at = self.sorted.partition_point(|number| match places.get(usize::from(*number)) {
            Some(other) => other.address.told() < address.told(),
            None => false,
        });
        match self
            .sorted
            .get(at)
            .and_then(|number| places.get(usize::from(*number)))
        {
            Some(other) if other.address.is(address) => Ok(at),
            _ => Err(at),
        }
    }

    /// The number of the peer of this address, if it has one. The one whose datagram came last is
    /// looked at first. One that was forgotten has none.
    pub fn known(&mut self, address: &Address) -> Option<Peer> {
        match self.place(self.last) {
            Some(place) if place.address.is(address) => return Some(self.last),
            _ => {}
        }
        let at = self.find(address).ok()?;
        let peer = Peer(*self.sorted.get(at)?);
        self.place(peer)?;
        self.last = peer;
        Some(peer)
    }

    /// A number for the peer of this address, which has none and sends in this life: the one that
    /// it had, where no other peer has it since; else one whose peers asked to connect in no
    /// greater life. None comes where there is no such number, or no memory for one more.
    pub fn add(&mut self, memory: &mut Memory, address: &Address, life: Life) -> Option<Peer> {
        let number = match self.find(address) {
            Ok(at) => *self.sorted.get(at)?,
            Err(_) => self.take(memory, address, life)?,
        };
        self.stand(Peer(number), Standing::Alone);
        Some(Peer(number))
    }

    // A free number becomes that of this address, which had none.
    fn take(&mut self, memory: &mut Memory, address: &Address, life: Life) -> Option<u8> {
        let number = self.free_number(memory, life)?;
        self.sorted.retain(|other| *other != number);
        let at = self.find(address).err()?;
        if at > self.sorted.len() {
            return None;
        }
        let inserted = self.sorted.insert(at, number);
        memory.kept(inserted).ok()?;
        let place = self.places.get_mut(usize::from(number))?;
        place.address = *address;
        Some(number)
    }

    /// The number of the peer of this address, which keeps it. None comes where it has none, and
    /// 256 others have one or there is no memory for one more.
    pub fn named(&mut self, memory: &mut Memory, address: &Address) -> Option<Peer> {
        let known = self.known(address);
        let peer = match known {
            Some(peer) => peer,
            None => self.add(memory, address, Life(FIRST_LIFE))?,
        };
        self.keep(peer);
        Some(peer)
    }

    // Of the numbers that are free for this life the one that was told the greatest life, so that
    // those of lower lives stay for others.
    fn best_free(&self, life: Life) -> Option<usize> {
        let mut best: Option<(usize, u32)> = None;
        for (number, place) in self.places.iter().enumerate() {
            let is_better = match best {
                Some((_, told)) => told < place.told,
                None => true,
            };
            if is_better && place.is_free_for(life) {
                best = Some((number, place.told));
            }
        }
        let (number, _told) = best?;
        Some(number)
    }

    // A number that is no peer's and is free for this life, with a place.
    fn free_number(&mut self, memory: &mut Memory, life: Life) -> Option<u8> {
        if let Some(number) = self.best_free(life) {
            return u8::try_from(number).ok();
        }
        let next = self.places.len();
        if next >= MOST_PEERS {
            return None;
        }
        memory.push(&mut self.places, Place::new()).ok()?;
        u8::try_from(next).ok()
    }

    /// A peer asked to connect in this life.
    pub fn tell(&mut self, peer: Peer, life: Life) {
        if let Some(place) = self.places.get_mut(usize::from(peer.0)) {
            place.told = place.told.max(life.0);
        }
    }

    // A peer keeps its number, whatever comes.
    fn keep(&mut self, peer: Peer) {
        if let Some(place) = self.places.get_mut(usize::from(peer.0)) {
            place.is_kept = true;
        }
    }

    /// Whether a peer keeps its number.
    pub fn is_kept(&self, peer: Peer) -> bool {
        match self.place(peer) {
            Some(place) => place.is_kept,
            None => false,
        }
    }

    /// The number of a peer that doesn't keep it is free again. It is the peer's once more where it
    /// comes back before another peer took it.
    pub fn forget(&mut self, peer: Peer) {
        if !self.is_kept(peer) {
            self.stand(peer, Standing::Free);
        }
    }
}
