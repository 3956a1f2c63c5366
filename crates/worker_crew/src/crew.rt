//! A crew: workers on threads of their own, or on the caller's.

mod starting;
mod stopping;
mod working;

use crate::dispatcher::Dispatcher;
use crate::manner::Manner;
use crate::workers::Finished;
use circular_buffer::HeapCircularBuffer;
use place_queue::Wakers;
use rpc_outside::Duty;
pub use starting::MOST_HANDS;
use std::collections::VecDeque;
use std::marker::Model;
use std::sync::Wait;
use worker_board::Ticket;

/// Workers over a board whose jobs are worked by hands. Where no hand was started the crew works by
/// itself. Its calls may wait for a hand's step in its queue, by the handle that it was given.
pub struct Crew<D: Duty, R: Wait> {
    rt: R,
    dispatcher: Dispatcher<D>,
    manner: Manner<D>,
    wakers: Wakers,
    // The tickets that found the queue full.
    later: HeapCircularBuffer<Ticket>,
    // Room for the jobs that are left when the crew is stopped.
    left: VecDeque<Finished>,
}

// Written by hand, so that whoever lets a crew go makes a call, and proves nothing of its parts.
impl<D: Duty + Drop, R: Wait + Drop> Drop for Crew<D, R> {
    fn drop(self) {
        let Crew {
            rt: _rt,
            dispatcher: _dispatcher,
            manner: _manner,
            wakers: _wakers,
            later: _later,
            left: _left,
        } = self;
    }
}

impl<D: Duty, R: Wait> Model for Crew<D, R> {
    ghost use Rattle.std.specs.Prelude.{◌≡◌, ◌≤◌, []};
    ghost use Rattle.std.specs.VecDeque.{deque_capacity};
    ghost use Rattle.worker_crew.specs.Crews.{CrewState, KeepsTo, has_hands, kept_by};

    ghost Value = { CrewState };

    ghost view = { λ c. record {
      dispatching = c.dispatcher;
      by_hands = has_hands c.manner;
      kept = kept_by c.manner;
      later = c.later.items;
    } };

    ghost invariant = { λ c. KeepsTo (record {
      dispatching = c.dispatcher;
      by_hands = has_hands c.manner;
      kept = kept_by c.manner;
      later = c.later.items;
    }) × (c.left.items ≡ []) × (c.dispatcher.places ≤ deque_capacity c.left)
        × (c.later.capacity ≡ c.dispatcher.places) };
}
