//! The newest requests of a session, with the slots' own buffers.
ghost use Rattle.std.specs.Prelude.{◌≡◌, ◌<◌, ◌≤◌, ◌==◌, ◌%◌, ◌↔◌, IsTrue, [], ◌∷◌, ◌++◌, length};
ghost use Rattle.std.specs.Prelude.{count_by, false, option_copied, position, slice_get, slice_set};
ghost use Rattle.std.specs.Prelude.{IfOk, IfSome, Some, true};
ghost use Rattle.std.specs.List.{AllByRecursion, find, remove};
ghost use Rattle.rpc_base.specs.Tables.{at_first, without_first};
ghost use Rattle.buffer_pool.specs.Pool.{spare_of};
ghost use Rattle.memory_count.specs.Faults.{HasCause};
ghost use Rattle.rpc_base.specs.declared.limits.TheConstants.{MOST_REFERENCES, PART_BYTES};
ghost use Rattle.server_core.specs.Homes.{is_lent};
ghost use Rattle.server_core.specs.KeepsPool.{KeepsPool};
ghost use Rattle.server_core.specs.Replies.{is_owner};
ghost use Rattle.server_core.specs.Reusing.{IsPut};
ghost use Rattle.server_core.specs.Serving.{IsUnheld, begun, given_up, gone_on, one_left, worked};
ghost use Rattle.server_core.specs.Session.{is_in_slot};
ghost use Rattle.server_core.specs.declared.slot.SlotState.TheVariants.{Working};

use crate::buffers::{empty_buffers, put_message};
use crate::homes::Homes;
use crate::slot::{SlotRequest, Stored};
use arrayvec::ArrayVec;
use buffer_pool::BufferPool;
use memory_count::{Memory, NoMemory};
use rpc_base::{MOST_REFERENCES, Owner, PART_BYTES, SessionNo};
use std::marker::Model;

/// The newest request of each slot in which one began, at most eight, which lie in the session
/// itself, and the slots' own buffers. Contracts see the list of requests, in the order in which
/// they began.
#[derive(Drop)]
pub struct Slots {
    items: ArrayVec<SlotRequest, 8>,
    homes: Homes,
}

impl Model for Slots {
    ghost use Rattle.std.specs.Prelude.{List};
    ghost use Rattle.server_core.specs.Homes.{AreHome};
    ghost use Rattle.server_core.specs.declared.slot.SlotRequest.{SlotRequest};

    ghost Value = { List SlotRequest };

    ghost view = { λ s. s.items.items };

    ghost invariant = { λ s. AreHome s.homes s.items.items };
}

impl Slots {
    /// No request: each slot's own buffer is at home. `NoMemory` comes only where there is no
    /// memory for these.
    pub fn new(memory: &mut Memory) -> Result<Slots, NoMemory>
        ensures empty { IfOk result (λ slots. slots ≡ []) }
        ensures cause { HasCause memory.old memory.new result }
    {
        let homes = Homes::new(memory)?;
        Ok(Slots {
            items: ArrayVec::new(),
            homes,
        })
    }

    /// Lends the requests as a slice.
    pub fn as_slice(&self) -> &[SlotRequest]
        ensures { result.now ≡ self.now }
    {
        self.items.as_slice()
    }

    fn place_of(&self, slot: u8) -> Option<usize>
        ensures { result ≡ position (is_in_slot slot) self.now }
    {
        self.as_slice()
            .iter()
            .position(|request| request.number.slot() == slot)
    }

    /// The request whose replies are this owner's in the session, if there is one.
    pub fn of_owner(&self, session: SessionNo, owner: Owner) -> Option<&SlotRequest>
        ensures { option_copied result ≡ find (is_owner session owner) self.now }
    {
        let Some(at) = self.place_of_owner(session, owner) else {
            return None;
        };
        Some(self.at(at))
    }

    // Request `i`, which has to be there.
    fn at(&self, i: usize) -> &SlotRequest
        requires { i < length self.now }
        ensures { slice_get self.now i ≡ Some result.now }
    {
        &self.items.as_slice()[i]
    }

    /// The newest request of a slot, if one began there.
    pub fn of_slot(&self, slot: u8) -> Option<SlotRequest>
        ensures { result ≡ find (is_in_slot slot) self.now }
    {
        let Some(at) = self.place_of(slot) else {
            return None;
        };
        Some(*self.at(at))
    }

    /// Whether no reference is left to the answer of any request.
    pub fn are_unheld(&self, pool: &BufferPool) -> bool
        requires { KeepsPool pool.now self.now }
        ensures { IsTrue result ↔ AllByRecursion (IsUnheld pool.now) self.now }
    {
        for request in self.as_slice() {
            if !request.is_unheld(pool) {
                return false;
            }
        }
        true
    }

    /// Puts a request behind the others, which are fewer than eight. It has no answer in its slot's
    /// own buffer.
    pub fn push(&mut self, request: SlotRequest)
        requires few { length self.old < 8 }
        requires lent { is_lent (Some request) ≡ false }
        ensures { self.new ≡ self.old ++ request ∷ [] }
    {
        push_last(&mut self.items, request);
    }

    /// Puts `request` in the place of the newest one of its slot, if there is one. The slot's own
    /// buffer stays where it is.
    pub fn replace(&mut self, request: SlotRequest)
        requires { IfSome (find (is_in_slot (request.number % 8)) self.old)
            (λ q. is_lent (Some request) ≡ is_lent (Some q)) }
        ensures { self.new ≡ gone_on request self.old }
    {
        if let Some(at) = self.place_of(request.number.slot()) {
            set_at(&mut self.items, at, request);
        }
    }

    /// A request begins behind all others, in the place of the newest one of its slot. The answers
    /// to both stand in the slot's own buffer.
    pub fn begin_again(&mut self, request: SlotRequest)
        requires few { length (without_first (is_in_slot (request.number % 8)) self.old) < 8 }
        requires apart { count_by (is_in_slot (request.number % 8)) self.old ≤ 1 }
        requires older { is_lent (find (is_in_slot (request.number % 8)) self.old) ≡ true }
        requires newer { is_lent (Some request) ≡ true }
        ensures { self.new ≡ begun request self.old }
    {
        let Some(at) = self.place_of(request.number.slot()) else {
            unreachable!()
        };
        take_out(&mut self.items, at);
        push_last(&mut self.items, request);
    }

    /// An entry of the request whose replies are this owner's in the session was sent, or taken out
    /// unsent.
    pub fn leave(&mut self, session: SessionNo, owner: Owner)
        ensures { self.new ≡ at_first (is_owner session owner) one_left self.old }
    {
        if let Some(at) = self.place_of_owner(session, owner) {
            let request = self.at(at).left();
            set_at(&mut self.items, at, request);
        }
    }

    fn place_of_owner(&self, session: SessionNo, owner: Owner) -> Option<usize>
        ensures { result ≡ position (is_owner session owner) self.now }
    {
        self.as_slice()
            .iter()
            .position(|request| request.owner(session).is_same(owner))
    }

    /// The newest request of a slot is given up, of which no reply is queued: its buffers leave the
    /// pool, and the slot's own one comes home.
    pub fn give_up(&mut self, pool: &mut BufferPool, slot: u8)
        requires keeps_pool { KeepsPool pool.old self.old }
        requires slot { slot < 8 }
        requires apart { count_by (is_in_slot slot) self.old ≤ 1 }
        requires unheld { IfSome (find (is_in_slot slot) self.old) (IsUnheld pool.old) }
        ensures slots { self.new ≡ without_first (is_in_slot slot) self.old }
        ensures pool { pool.new ≡ given_up (find (is_in_slot slot) self.old) pool.old }
    {
        let Some(at) = self.place_of(slot) else {
            return;
        };
        let request = *self.at(at);
        take_out(&mut self.items, at);
        let own = empty_buffers(pool, &request);
        self.homes.bring(slot, own);
    }

    /// The answer to a request that is at work, the newest of its slot, gets the slot's own buffer,
    /// which goes to the pool with the answer's size. The pool has an empty place.
    pub fn lend(&mut self, pool: &mut BufferPool, request: &SlotRequest, size: u32) -> Stored
        requires newest { find (is_in_slot (request.now.number % 8)) self.old ≡ Some request.now }
        requires working { request.now.state ≡ Working }
        requires few { request.now.queued < MOST_REFERENCES }
        requires short { size ≤ PART_BYTES }
        requires spare { 0 < spare_of pool.old }
        ensures slots { self.new ≡ gone_on (worked result request.now) self.old }
        ensures size { result.size ≡ size }
        ensures pool { IsPut result pool.old pool.new }
    {
        let slot = request.number.slot();
        let Some(at) = self.place_of(slot) else {
            unreachable!()
        };
        let mut buffer = self.homes.lend(slot);
        buffer.set_len(size);
        let place = put_message(pool, buffer).place;
        let answer = Stored {
            place,
            size,
            own: true,
        };
        set_at(&mut self.items, at, request.worked(&answer));
        answer
    }
}

// Puts an item in the place of item `i`, which has to be there.
fn set_at<T: Copy + Default>(items: &mut ArrayVec<T, 8>, i: usize, item: T)
    requires { i < length items.old.items }
    ensures { items.new.items ≡ slice_set items.old.items i item }
{
    items.as_mut_slice()[i] = item;
}

// Takes item `i` out, which has to be there.
fn take_out<T: Copy + Default>(items: &mut ArrayVec<T, 8>, i: usize)
    requires { i < length items.old.items }
    ensures { items.new.items ≡ remove items.old.items i }
{
    items.remove(i);
}

// Puts an item behind the others. The items have no enum in them here, of which the list need know.
fn push_last<T: Copy + Default>(items: &mut ArrayVec<T, 8>, item: T)
    requires { length items.old.items < 8 }
    ensures { items.new.items ≡ items.old.items ++ item ∷ [] }
{
    items.push(item);
}
