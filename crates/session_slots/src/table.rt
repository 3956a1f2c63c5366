//! The table of a session's slots, with the calls that wait for one.
ghost use Rattle.std.specs.Prelude.{◌≡◌, ◌<◌, ◌^◌, ◌↔◌, ◌⊎◌, [], IsNone, IfNone, IfSome, OnSome};
ghost use Rattle.std.specs.Prelude.{◌-◌, IfErr, OnErr, OnOk, length, option_copied, slice_get};
ghost use Rattle.memory_count.specs.Faults.{HasCause};
ghost use Rattle.session_slots.specs.Slots.{Activates, Begins, Deactivates, IsActive, IsNewNumber};
ghost use Rattle.session_slots.specs.Slots.{IsSound, WasGiven, active_call, all_free, drained};
ghost use Rattle.session_slots.specs.Slots.{ended, lowest_free, waited};

use crate::active::Active;
use crate::waiting::Waiting;
use memory_count::Memory;
use rpc_base::{CallNo, MOST_CALLS, RequestNo};
use std::alloc::Global;
use std::collections::VecDeque;
use std::marker::Model;

/// The eight slots of one client session. Contracts see each slot, free or with its active request
/// and call; how many requests began in each; the waiting calls, oldest first; and how many calls
/// were taken in all.
#[derive(Debug, Drop)]
pub struct SlotTable {
    slots: [Option<Active>; 8],
    turns: [u64; 8],
    waiting: VecDeque<Waiting>,
    taken: u64,
}

impl Model for SlotTable {
    ghost use Rattle.session_slots.specs.Slots.{Slots, IsSound};

    ghost Value = { Slots };

    ghost view = { λ t. record {
      slots = t.slots;
      turns = t.turns;
      waiting = t.waiting.items;
      taken = t.taken;
    } };

    ghost invariant = { λ t. IsSound (record {
      slots = t.slots;
      turns = t.turns;
      waiting = t.waiting.items;
      taken = t.taken;
    }) };
}

impl SlotTable {
    /// A table with all slots free and no waiting call. It takes no memory yet.
    pub fn new(alloc: Global) -> SlotTable
        ensures { result ≡ all_free }
    {
        SlotTable {
            slots: [None; 8],
            turns: [0; 8],
            waiting: VecDeque::new(alloc),
            taken: 0,
        }
    }

    /// How many calls `wait` has taken, 0 to 2^45.
    pub fn taken(&self) -> u64
        ensures taken { result ≡ self.now.taken }
        ensures sound { IsSound self.now }
    {
        self.taken
    }

    /// The call waits behind all others. Fewer than 2^45 calls were taken before: then no turn
    /// passes what a request number holds. Err comes only where memory was refused, and hands the
    /// call back.
    pub fn wait(&mut self, memory: &mut Memory, w: Waiting) -> Result<(), Waiting>
        requires { self.old.taken < MOST_CALLS }
        ensures waits { OnOk result (self.new ≡ waited w self.old) }
        ensures unchanged { OnErr result (self.new ≡ self.old) }
        ensures handed_back { IfErr result (λ back. back ≡ w) }
        ensures cause { HasCause memory.old memory.new result }
        ensures sound { IsSound self.new }
    {
        memory.push_back(&mut self.waiting, w)?;
        self.taken += 1;
        Ok(())
    }

    /// The call that was taken last, where it waits. None comes exactly where no call waits.
    pub fn newest(&self) -> Option<&Waiting>
        ensures { option_copied result
            ≡ slice_get self.now.waiting (length self.now.waiting - 1) }
    {
        self.waiting.back()
    }

    fn lowest_free(&self) -> Option<usize>
        ensures { result ≡ lowest_free self.now }
    {
        self.slots.iter().position(|slot| slot.is_none())
    }

    /// The call that waited longest begins in the lowest free slot. Its request has the number
    /// `slot + 8 * turn`, the turns of a slot being counted from 0, which no request had before.
    /// None comes exactly where no call waits or no slot is free.
    pub fn begin(&mut self) -> Option<(RequestNo, Waiting)>
        ensures none { IsNone result ↔ ((self.old.waiting ≡ []) ⊎ (lowest_free self.old ≡ None)) }
        ensures unchanged { IfNone result (self.new ≡ self.old) }
        ensures begins { IfSome result (λ b. Begins b.0 b.1 self.old self.new) }
        ensures new_number { IfSome result (λ b. IsNewNumber b.0 self.old self.new) }
        ensures active { IfSome result (λ b. Activates b.0 b.1.call self.old self.new) }
        ensures sound { IsSound self.new }
    {
        let Some(slot) = self.lowest_free() else {
            return None;
        };
        let Some(waiting) = self.waiting.pop_front() else {
            return None;
        };
        let turn = self.turns[slot];
        let request = RequestNo::of(slot as u8, turn);
        self.slots[slot] = Some(Active {
            request,
            call: waiting.call,
        });
        self.turns[slot] = turn + 1;
        Some((request, waiting))
    }

    /// The request is over, and its slot is free. The request has to be active, as `call_of` tells.
    pub fn end(&mut self, request: RequestNo)
        requires { IsActive request self.old }
        ensures ended { self.new ≡ ended request self.old }
        ensures over { Deactivates request self.old self.new }
        ensures sound { IsSound self.new }
    {
        self.slots[usize::from(request.slot())] = None;
    }

    /// The call of the request, and None exactly where the request isn't active.
    pub fn call_of(&self, request: RequestNo) -> Option<CallNo>
        ensures call { result ≡ active_call request self.now }
        ensures given { OnSome result (WasGiven request self.now) }
        ensures sound { IsSound self.now }
    {
        match &self.slots[usize::from(request.slot())] {
            Some(active) if active.request.get() == request.get() => Some(active.call),
            _ => None,
        }
    }

    /// Takes out the call that waited longest. None comes exactly where no call waits.
    pub fn drain(&mut self) -> Option<Waiting>
        ensures none { IsNone result ↔ (self.old.waiting ≡ []) }
        ensures oldest { result ≡ slice_get self.old.waiting 0 }
        ensures drained { self.new ≡ drained self.old }
        ensures sound { IsSound self.new }
    {
        self.waiting.pop_front()
    }
}
