//! What is done with a queue. No contract says that a call which takes a handle returns.
ghost use Rattle.std.specs.Prelude.{◌≡◌, ◌<◌, ◌≤◌, ◌+◌, ◌-◌, ◌^◌, ◌++◌, ◌∷◌, [], length, map};
ghost use Rattle.std.specs.Prelude.{IfOk, IfSome, IfNone, true, false};
ghost use Rattle.memory_count.specs.Faults.{HasCause};
ghost use Rattle.place_queue.specs.Order.{AllTold};
ghost use Rattle.place_queue.specs.Ends.{queue_of, room_of, put_end, put_by, ends_out, told_to};
ghost use Rattle.place_queue.specs.Ends.{take_end, taken_by, SamePutter};

use super::{PlaceQueue, Putter, Taker};
use crate::knows::Numbered;
use crate::rule::{Puts, SendsOut, Settles, Takes, TakesIn};
use crate::sleeping::Sleeper;
use crossbeam_queue::RuledArrayQueue;
use memory_count::{Memory, NoMemory};
use std::sync::Wait;
use worker_board::Ticket;

impl PlaceQueue {
    /// An empty queue with room for `places` tickets, and the dispatcher's end of it.
    pub fn new(memory: &mut Memory, places: u32) -> Result<(PlaceQueue, Putter), NoMemory>
        requires { 0 < places }
        ensures room { IfOk result (λ r. room_of r.0 ≡ places) }
        ensures ours { IfOk result (λ r. put_end r.1 ≡ queue_of r.0) }
        ensures empty { IfOk result (λ r. (put_by r.1 ≡ []) × (told_to r.1 ≡ [])
            × (ends_out r.1 ≡ 0)) }
        ensures cause { HasCause memory.old memory.new result }
    {
        let made = RuledArrayQueue::ruled(memory.alloc(), places as usize);
        let (line, pass) = memory.of(made)?;
        Ok((PlaceQueue { line }, Putter { pass, next: 0 }))
    }

    /// Puts a ticket at the end. False comes only where the queue was full at one moment of the
    /// call, so that as many tickets were put before as it has room for. It may wait for a hand
    /// that is taking one.
    pub fn put<R: Wait>(&self, rt: &R, putter: &mut Putter, ticket: Ticket) -> bool
        requires ours { put_end putter.old ≡ queue_of self.now }
        requires count { length (put_by putter.old) < 2 ^ 62 }
        ensures put { result ≡ true → put_by putter.new ≡ put_by putter.old ++ ticket ∷ [] }
        ensures full { result ≡ false → (put_by putter.new ≡ put_by putter.old)
            × (room_of self.now ≤ length (put_by putter.old)) }
        ensures same { SamePutter putter.old putter.new }
    {
        let index = putter.next;
        match self
            .line
            .push_as::<Puts, R>(rt, &mut putter.pass, Numbered { index, ticket })
        {
            Ok(()) => {
                putter.next += 1;
                true
            }
            Err(_) => false,
        }
    }

    /// Takes the oldest ticket. It waits for none to come, but it may wait for a step of another.
    pub fn take<R: Wait>(&self, rt: &R, taker: &mut Taker) -> Option<Numbered>
        requires ours { take_end taker.old ≡ queue_of self.now }
        ensures taken { IfSome result (λ x. taken_by taker.new ≡ taken_by taker.old ++ x ∷ []) }
        ensures none { IfNone result (taken_by taker.new ≡ taken_by taker.old) }
        ensures same { take_end taker.new ≡ take_end taker.old }
    {
        self.line.pop_as::<Takes, R>(rt, &mut taker.pass)
    }

    /// The oldest ticket, once there is one; `None` once the wakers were closed.
    pub fn next<R: Wait>(&self, rt: &R, taker: &mut Taker, sleeper: &Sleeper) -> Option<Numbered>
        requires ours { take_end taker.old ≡ queue_of self.now }
        ensures taken { IfSome result (λ x. taken_by taker.new ≡ taken_by taker.old ++ x ∷ []) }
        ensures none { IfNone result (taken_by taker.new ≡ taken_by taker.old) }
        ensures same { take_end taker.new ≡ take_end taker.old }
    {
        for _ in rt.forever() {
            if sleeper.is_closed() {
                return None;
            }
            if let Some(ticket) = self.take(rt, taker) {
                return Some(ticket);
            }
            // The dispatcher puts a ticket and then looks for an idle hand: the second try finds
            // the ticket, or the dispatcher finds this hand.
            sleeper.tell_idle(true);
            if let Some(ticket) = self.take(rt, taker) {
                sleeper.tell_idle(false);
                return Some(ticket);
            }
            sleeper.sleep(rt);
        }
        unreachable!()
    }

    /// A hand's end of the queue.
    pub fn taker(&self, putter: &mut Putter) -> Taker
        requires ours { put_end putter.old ≡ queue_of self.now }
        ensures made { (take_end result ≡ queue_of self.now) × (taken_by result ≡ []) }
        ensures out { ends_out putter.new ≡ ends_out putter.old + 1 }
        ensures same { (put_end putter.new ≡ put_end putter.old)
            × (put_by putter.new ≡ put_by putter.old) × (told_to putter.new ≡ told_to putter.old) }
    {
        let pass = self.line.another::<SendsOut>(&mut putter.pass);
        Taker { pass }
    }

    /// Takes a hand's end in, and keeps what it took.
    pub fn take_in(&self, putter: &mut Putter, taker: Taker)
        requires ours { put_end putter.old ≡ queue_of self.now }
        requires its { take_end taker ≡ queue_of self.now }
        ensures told { told_to putter.new ≡ told_to putter.old ++ taken_by taker }
        ensures out { ends_out putter.new ≡ ends_out putter.old - 1 }
        ensures same { (put_end putter.new ≡ put_end putter.old)
            × (put_by putter.new ≡ put_by putter.old) }
    {
        let Taker { pass } = taker;
        self.line.absorb::<TakesIn>(&mut putter.pass, pass);
    }

    /// What the rule tells once all hands' ends are in: they took the first of the tickets put,
    /// each once and under its number.
    pub fn settle(&self, putter: &mut Putter)
        requires ours { put_end putter.old ≡ queue_of self.now }
        requires none { ends_out putter.old ≡ 0 }
        ensures told { AllTold (put_by putter.new) (told_to putter.new) }
        ensures put { put_by putter.new ≡ put_by putter.old }
        ensures same { SamePutter putter.old putter.new }
    {
        self.line.learn_as::<Settles>(&mut putter.pass);
    }
}
