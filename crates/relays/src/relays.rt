//! The jobs that were asked of another server.
ghost use Rattle.std.specs.Prelude.{◌≡◌, ◌≢◌, ◌+◌, ◌<◌, ◌++◌, ◌∷◌, [], ℕ, Some, length};
ghost use Rattle.std.specs.Prelude.{IfNone, IfOk, IfSome, OnSome, slice_get};
ghost use Rattle.std.specs.List.{remove};
ghost use Rattle.std.specs.VecDeque.{deque_capacity};
ghost use Rattle.memory_count.specs.Faults.{HasCause};
ghost use Rattle.deferred_calls.specs.Moves.{Answers, HandsOut, IsFirstOf};
ghost use Rattle.relays.specs.Relaying.{Settles, Stands};

use crate::answering::answer_by;
use client_core::Done;
use deferred_calls::{Checked, Deferred, Desk};
use memory_count::{Memory, NoMemory};
use std::collections::VecDeque;
use std::marker::Model;

/// The jobs of a desk that were asked of another server, whose handles it keeps until their calls
/// are over, and how many jobs were answered. It must be spent.
pub struct Relays {
    jobs: u32,
    asked: VecDeque<Deferred>,
    relayed: u64,
    here: u64,
}

impl Model for Relays {
    ghost use Rattle.std.specs.Prelude.{◌≤◌};
    ghost use Rattle.std.specs.VecDeque.{deque_capacity};
    ghost use Rattle.relays.specs.Relaying.{Relaying};

    ghost Value = { Relaying };

    ghost view = { λ r. record {
      limit = r.jobs;
      asked = r.asked.items;
      relayed = r.relayed;
      here = r.here;
    } };

    ghost invariant = { λ r. r.jobs ≤ deque_capacity r.asked };
}

// Where the first job of this number stands.
fn place_of(asked: &VecDeque<Deferred>, number: u64) -> usize
    ensures { IsFirstOf number asked.now.items result }
{
    for i in 0..asked.len() {
        if asked[i].number() == number {
            return i;
        }
    }
    asked.len()
}

fn take_at(asked: &mut VecDeque<Deferred>, place: usize) -> Option<Deferred>
    ensures taken { IfSome result (λ n. slice_get asked.old.items place ≡ Some n) }
    ensures others { OnSome result (asked.new.items ≡ remove asked.old.items place) }
    ensures none { IfNone result (asked.new ≡ asked.old) }
    ensures beyond { IfNone result (place < length asked.old.items → ⊥) }
    ensures capacity { deque_capacity asked.new ≡ deque_capacity asked.old }
{
    asked.remove(place)
}

fn put_last(asked: &mut VecDeque<Deferred>, handle: Deferred)
    requires { length asked.old.items < deque_capacity asked.old }
    ensures items { asked.new.items ≡ asked.old.items ++ handle ∷ [] }
    ensures capacity { deque_capacity asked.new ≡ deque_capacity asked.old }
{
    asked.push_back_reserved(handle);
}

impl Relays {
    /// No job was asked so far; at most `jobs` may be at a time. The memory for them is taken here.
    pub fn new(memory: &mut Memory, jobs: u32) -> Result<Relays, NoMemory>
        ensures made { IfOk result (λ r. r ≡ record {
          limit = jobs;
          asked = [];
          relayed = 0;
          here = 0;
        }) }
        ensures cause { HasCause memory.old memory.new result }
    {
        let asked = memory.queue(jobs as usize)?;
        Ok(Relays {
            jobs,
            asked,
            relayed: 0,
            here: 0,
        })
    }

    /// How many jobs were answered with the other server's answers.
    pub fn relayed(&self) -> u64
        ensures { result ≡ self.now.relayed }
    {
        self.relayed
    }

    /// How many jobs were answered here.
    pub fn here(&self) -> u64
        ensures { result ≡ self.now.here }
    {
        self.here
    }

    /// A handle for the oldest job that has none, which is to be asked or worked here; `None` comes
    /// exactly where each has one.
    pub fn next<D: Checked>(&self, desk: &mut Desk<D>) -> Option<Deferred>
        requires stands { Stands desk.old [] self.now }
        ensures hands_out { HandsOut result desk.old desk.new }
        ensures some { IfSome result (λ n. Stands desk.new (n ∷ []) self.now) }
        ensures none { IfNone result (Stands desk.new [] self.now) }
    {
        desk.next()
    }

    /// Keeps the handle of a job that was asked, until its call is over.
    pub fn keep<D: Checked>(&mut self, desk: &Desk<D>, handle: Deferred)
        requires stands { Stands desk.now (handle ∷ []) self.old }
        ensures stands { Stands desk.now [] self.new }
        ensures asked { self.new ≡ record self.old { asked = self.old.asked ++ handle ∷ [] } }
    {
        desk.sound();
        put_last(&mut self.asked, handle);
    }

    /// Answers a job here that can't be asked, and counts it.
    pub fn work_here<D: Checked>(&mut self, desk: &mut Desk<D>, handle: Deferred)
        requires stands { Stands desk.old (handle ∷ []) self.old }
        ensures answers { Answers D.answer handle desk.old desk.new }
        ensures stands { Stands desk.new [] self.new }
        ensures counted { self.new ≡ record self.old { here = self.old.here + 1 } }
    {
        desk.sound();
        desk.work_here(handle);
        self.here += 1;
    }

    /// Answers the job whose call is over, with the answer that came where that is the job's, and
    /// here otherwise, and counts it. Does nothing where no job of the call's tag was asked.
    pub fn settle<D: Checked>(&mut self, desk: &mut Desk<D>, done: &Done)
        requires stands { Stands desk.old [] self.old }
        ensures stands { Stands desk.new [] self.new }
        ensures settles { Settles D.answer done.now desk.old desk.new self.old self.new }
    {
        desk.sound();
        let place = place_of(&self.asked, done.tag);
        let Some(handle) = take_at(&mut self.asked, place) else {
            return;
        };
        if answer_by(desk, handle, done) {
            self.relayed += 1;
        } else {
            self.here += 1;
        }
    }

    /// Gives all handles up. It is called only after the last turn.
    pub fn finish(self) {
        let Relays {
            jobs: _,
            mut asked,
            relayed: _,
            here: _,
        } = self;
        'handles: while let Some(handle) = asked.pop_front() {
            let _parcel = handle.give_up();
        }
        asked.destroy_empty();
    }
}
