//! The pool.
ghost use Rattle.std.specs.Prelude.{◌≡◌, ◌<◌, ℕ, List, Some, None, length, false, IfOk, IfErr};
ghost use Rattle.std.specs.Prelude.{OnOk, slice_set};
ghost use Rattle.std.specs.Borrow.{sem};
ghost use Rattle.memory_count.specs.Faults.{HasCause};
ghost use Rattle.buffer_pool.specs.Uses.{is_full};
ghost use Rattle.buffer_pool.specs.Places.{IsHeld, MayHold, held_at, released_at};
ghost use Rattle.buffer_pool.specs.Pool.{IsFull, IsLent, all_empty, buf_at, emptied, filled, held};
ghost use Rattle.buffer_pool.specs.Pool.{lent, lowest_empty, refs_of, released, spare_of};

use crate::held::Held;
use crate::places::Places;
use crate::usage::Use;
use memory_count::{Memory, NoMemory};
use message_buffer::MsgBuf;
use rpc_base::{MOST_REFERENCES, Place};
use std::marker::Model;

/// A list of places for message buffers. A buffer moves in and out whole. Contracts see the exact
/// list of the places' uses and that of their buffers.
#[derive(Debug, Drop)]
pub struct BufferPool {
    places: Places,
    bufs: Vec<Option<MsgBuf>>,
}

impl Model for BufferPool {
    ghost use Rattle.buffer_pool.specs.Pool.{Pool, HoldsFull};

    ghost Value = { Pool };

    ghost view = { λ a. record { uses = a.places; bufs = a.bufs.items } };

    ghost invariant = { λ a. HoldsFull a.places a.bufs.items };
}

impl BufferPool {
    ghost use Rattle.buffer_pool.specs.Lending.{lends_buffer};

    /// A pool of so many places, all empty. `NoMemory` comes only where memory was refused.
    pub fn new(memory: &mut Memory, places: u32) -> Result<BufferPool, NoMemory>
        ensures made { IfOk result (λ p. p ≡ all_empty places) }
        ensures cause { HasCause memory.old memory.new result }
    {
        let mut bufs = memory.list(places as usize)?;
        for _place in 0..places {
            memory.push(&mut bufs, None)?;
        }
        let places = Places::new(memory, places)?;
        Ok(BufferPool { places, bufs })
    }

    /// How many places are empty.
    pub fn spare(&self) -> u32
        ensures { result ≡ spare_of self.now }
    {
        self.places.spare()
    }

    /// How many references there are to the buffer of a full place.
    pub fn refs(&self, place: Place) -> u32
        requires { IsFull self.now place }
        ensures { result ≡ refs_of self.now place }
    {
        self.places.at(place.0).refs()
    }

    /// Puts a buffer into the lowest empty place, with no reference to it. A place has to be empty.
    pub fn put(&mut self, buf: MsgBuf) -> Place
        requires { 0 < spare_of self.old }
        ensures place { lowest_empty self.old ≡ Some result }
        ensures pool { self.new ≡ filled result buf self.old }
    {
        let Some(place) = self.places.lowest() else {
            unreachable!()
        };
        self.fill(place, buf);
        Place(place)
    }

    /// Lends the buffer of a full place.
    pub fn get(&self, place: Place) -> &MsgBuf
        requires { IsFull self.now place }
        ensures { buf_at self.now place ≡ Some result.now }
    {
        match &self.bufs[place.0 as usize] {
            Some(buf) => buf,
            None => unreachable!(),
        }
    }

    /// Lends the buffer of a full place with no references to it, to be written to.
    pub fn get_mut(&mut self, place: Place) -> &mut MsgBuf
        requires full { IsFull self.old place }
        requires free { refs_of self.old place ≡ 0 }
        ensures* writes_back { sem 𝓛 (lends_buffer self.entry place result) }
        ensures buffer { buf_at self.old place ≡ Some result.now }
    {
        match &mut self.bufs[place.0 as usize] {
            Some(buf) => buf,
            None => unreachable!(),
        }
    }

    /// Adds a reference to the buffer of a full place, which has fewer than 2^32 - 1.
    pub fn hold(&mut self, place: Place)
        requires full { IsFull self.old place }
        requires few { refs_of self.old place < MOST_REFERENCES }
        ensures { self.new ≡ held place self.old }
    {
        let refs = self.refs(place);
        self.places.set(place.0, Use::Full { refs: refs + 1 });
    }

    /// Takes a reference to the buffer of a place away, which has one.
    pub fn release(&mut self, place: Place)
        requires { 0 < refs_of self.old place }
        ensures { self.new ≡ released place self.old }
    {
        let refs = self.refs(place);
        self.places.set(place.0, Use::Full { refs: refs - 1 });
    }

    /// Adds a reference to a place, if there is one.
    pub fn hold_at(&mut self, place: Option<Place>)
        requires { MayHold self.old place }
        ensures { self.new ≡ held_at place self.old }
    {
        if let Some(place) = place {
            self.hold(place);
        }
    }

    /// Takes a reference to a place away, if there is one.
    pub fn release_at(&mut self, place: Option<Place>)
        requires { IsHeld self.old place }
        ensures { self.new ≡ released_at place self.old }
    {
        if let Some(place) = place {
            self.release(place);
        }
    }

    /// Takes the buffer out of a full place, which is empty afterwards. `Held` comes exactly where
    /// there are references to it, and then nothing changed.
    pub fn take(&mut self, place: Place) -> Result<MsgBuf, Held>
        requires { IsFull self.old place }
        ensures taken { IfOk result (λ buf. (refs_of self.old place ≡ 0)
            × (buf_at self.old place ≡ Some buf) × (self.new ≡ emptied place self.old)) }
        ensures held { IfErr result (λ h. (0 < h.refs) × (refs_of self.old place ≡ h.refs)
            × (self.new ≡ self.old)) }
    {
        self.check_unheld(place)?;
        Ok(self.move_out(place.0, Use::Empty))
    }

    /// Takes the buffer out of a full place, to which it will come back or which it will leave: the
    /// place is neither empty nor full afterwards. `Held` is as for `take`.
    pub fn lend(&mut self, place: Place) -> Result<MsgBuf, Held>
        requires { IsFull self.old place }
        ensures lent { IfOk result (λ buf. (refs_of self.old place ≡ 0)
            × (buf_at self.old place ≡ Some buf) × (self.new ≡ lent place self.old)) }
        ensures held { IfErr result (λ h. (0 < h.refs) × (refs_of self.old place ≡ h.refs)
            × (self.new ≡ self.old)) }
    {
        self.check_unheld(place)?;
        Ok(self.move_out(place.0, Use::Lent))
    }

    /// Puts a buffer into a lent place, with no reference to it.
    pub fn restore(&mut self, place: Place, buf: MsgBuf)
        requires { IsLent self.old place }
        ensures { self.new ≡ filled place buf self.old }
    {
        self.fill(place.0, buf);
    }

    /// Gives a lent place up: it is empty afterwards.
    pub fn forget(&mut self, place: Place)
        requires { IsLent self.old place }
        ensures { self.new ≡ emptied place self.old }
    {
        self.places.set(place.0, Use::Empty);
    }

    fn fill(&mut self, place: u32, buf: MsgBuf)
        requires { place < length self.old.uses }
        ensures { self.new ≡ filled place buf self.old }
    {
        self.bufs[place as usize] = Some(buf);
        self.places.set(place, Use::Full { refs: 0 });
    }

    // Answers `Held` where there are references to the buffer of a full place.
    fn check_unheld(&self, place: Place) -> Result<(), Held>
        requires { IsFull self.now place }
        ensures free { OnOk result (refs_of self.now place ≡ 0) }
        ensures held { IfErr result (λ h. (0 < h.refs) × (refs_of self.now place ≡ h.refs)) }
    {
        let refs = self.refs(place);
        if refs > 0 {
            return Err(Held { refs });
        }
        Ok(())
    }

    // Moves the buffer of a full place out, and puts the place to a use without a buffer.
    fn move_out(&mut self, place: u32, next: Use) -> MsgBuf
        requires full { IsFull self.old place }
        requires next { is_full next ≡ false }
        ensures buf { buf_at self.old place ≡ Some result }
        ensures pool { self.new ≡ record {
          uses = slice_set self.old.uses place next;
          bufs = slice_set self.old.bufs place None;
        } }
    {
        let moved = self.bufs[place as usize].take();
        self.places.set(place, next);
        match moved {
            Some(buf) => buf,
            None => unreachable!(),
        }
    }
}
