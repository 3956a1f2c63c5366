//! What an endpoint asks of a crew.
ghost use Rattle.std.specs.Prelude.{◌≡◌, ◌≤◌, ◌<◌, ◌+◌, ◌∷◌, ◌++◌, [], ◌↔◌, length, map, true};
ghost use Rattle.std.specs.Prelude.{false, option_map, IsTrue, IsNone, IsErr, IfErr, IfSome};
ghost use Rattle.std.specs.Prelude.{IfNone};
ghost use Rattle.std.specs.Prelude.{OnOk, OnErr, IsPermutation};
ghost use Rattle.worker_crew.specs.Jobs.{job_of, HasRoom, IsAnswered, IsFull, TakesFirst};
ghost use Rattle.worker_crew.specs.Jobs.{FoundUnfinished};
ghost use Rattle.worker_crew.specs.Crews.{untold, names, team_of, has_hands, SameHands, KeepsTo};
ghost use Rattle.worker_crew.specs.Crews.{GaveTicket, SameTickets};
ghost use Rattle.worker_crew.specs.Dispatching.{jobs_in, looks_in, MissedEach};
ghost use Rattle.worker_crew.specs.Waiting.{WaitsForRoom, WentOut};

use super::Crew;
use crate::dispatcher::Dispatcher;
use crate::hand::Hand;
use crate::manner::Manner;
use crate::workers::{Finished, Workers};
use circular_buffer::HeapCircularBuffer;
use place_queue::Wakers;
use rpc_outside::Duty;
use std::sync::Wait;
use worker_board::{Parcel, Ticket};

// Runs one step of each hand.
fn step_each<D: Duty, R: Wait>(rt: &R, hands: &mut Vec<Hand<D>>)
    ensures { names hands.new.items ≡ names hands.old.items }
{
    for i in 0..hands.len() {
        hands[i].step(rt);
    }
}

// Puts the ticket of a job behind all others, and wakes a hand for it.
fn put<D: Duty, R: Wait>(
    rt: &R,
    dispatcher: &mut Dispatcher<D>,
    wakers: &Wakers,
    later: &mut HeapCircularBuffer<Ticket>,
    ticket: Ticket,
)
    requires few { length dispatcher.old.put < dispatcher.old.given }
    requires behind { WaitsForRoom dispatcher.old.places dispatcher.old.put later.old.items }
    ensures out { WentOut later.old.capacity ticket dispatcher.old.put later.old.items
        dispatcher.new.put later.new.items }
    ensures few { length dispatcher.new.put + length later.new.items
        ≤ length dispatcher.old.put + length later.old.items + 1 }
    ensures behind { WaitsForRoom dispatcher.old.places dispatcher.new.put later.new.items }
    ensures same { dispatcher.new ≡ record dispatcher.old { put = dispatcher.new.put } }
    ensures room { later.new.capacity ≡ later.old.capacity }
{
    if later.is_empty() && dispatcher.put(rt, ticket) {
        wakers.wake_one();
    } else {
        let _oldest = later.push_back(ticket);
    }
}

// Tries once more to put the oldest ticket that found the queue full.
fn put_oldest<D: Duty, R: Wait>(
    rt: &R,
    dispatcher: &mut Dispatcher<D>,
    wakers: &Wakers,
    later: &mut HeapCircularBuffer<Ticket>,
)
    requires few { length dispatcher.old.put + length later.old.items ≤ dispatcher.old.given }
    requires behind { WaitsForRoom dispatcher.old.places dispatcher.old.put later.old.items }
    ensures tickets { dispatcher.new.put ++ later.new.items
        ≡ dispatcher.old.put ++ later.old.items }
    ensures behind { WaitsForRoom dispatcher.old.places dispatcher.new.put later.new.items }
    ensures same { dispatcher.new ≡ record dispatcher.old { put = dispatcher.new.put } }
    ensures room { later.new.capacity ≡ later.old.capacity }
{
    if let Some(&ticket) = later.front() {
        if dispatcher.put(rt, ticket) {
            wakers.wake_one();
            let _put = later.pop_front();
        }
    }
}

impl<D: Duty, R: Wait> Workers for Crew<D, R> {
    ghost answer = { D.answer };

    ghost limit = { λ c. c.dispatching.places };

    ghost out = { λ c. jobs_in c.dispatching };

    ghost given = { λ c. c.dispatching.given };

    ghost worked = { untold };

    ghost waiting = { untold };

    ghost looks = { λ c. looks_in c.dispatching };

    ghost team = { team_of };

    /// As the trait says; the job waits behind all others. Where hands were started its ticket is
    /// put into the queue, or waits with the crew, which it does only where as many were put as
    /// there are places.
    fn give(&mut self, job: Parcel) -> Result<(), Parcel>
        requires room { HasRoom D.answer job }
        ensures full { IsErr result ↔ IsFull self.old.dispatching.places
            (length (jobs_in self.old.dispatching)) self.old.dispatching.given }
        ensures out { OnOk result (IsPermutation (job_of job ∷ jobs_in self.old.dispatching)
            (jobs_in self.new.dispatching)) }
        ensures given { OnOk result (self.new.dispatching.given
            ≡ self.old.dispatching.given + 1) }
        ensures handed_back { IfErr result (λ back. back ≡ job) }
        ensures unchanged { OnErr result ((jobs_in self.new.dispatching
            ≡ jobs_in self.old.dispatching)
            × (self.new.dispatching.given ≡ self.old.dispatching.given)) }
        ensures worked { untold self.new ≡ untold self.old }
        ensures waits { OnOk result (untold self.new
            ≡ option_map (λ jobs. jobs ++ job ∷ []) (untold self.old)) }
        ensures limit { self.new.dispatching.places ≡ self.old.dispatching.places }
        ensures looks { looks_in self.new.dispatching ≡ looks_in self.old.dispatching }
        ensures last { OnOk result (jobs_in self.new.dispatching
            ≡ jobs_in self.old.dispatching ++ job_of job ∷ []) }
        ensures ticket { OnOk result (self.old.by_hands ≡ true → GaveTicket self.old self.new) }
        ensures alone { self.old.by_hands ≡ false → SameTickets self.old self.new }
        ensures kept { OnErr result (SameTickets self.old self.new) }
        ensures hands { SameHands self.old self.new }
        ensures team { team_of self.new ≡ team_of self.old }
        ensures keeps { KeepsTo self.new }
    {
        if self.dispatcher.is_full() {
            return Err(job);
        }
        let ticket = self.dispatcher.offer(job);
        match &self.manner {
            Manner::Alone(_) => {}
            Manner::ByHands(_) => put(
                &self.rt,
                &mut self.dispatcher,
                &self.wakers,
                &mut self.later,
                ticket,
            ),
        }
        Ok(())
    }

    fn full(&self) -> bool {
        self.dispatcher.is_full()
    }

    /// As the trait says. Where hands were started, each hand that the crew keeps works a ticket
    /// first, and no job is taken back; else the oldest job is answered here.
    fn take(&mut self) -> Option<Finished>
        ensures out { IfSome result (λ f. IsPermutation (jobs_in self.old.dispatching)
            (job_of f.parcel ∷ jobs_in self.new.dispatching)) }
        ensures answered { IfSome result (λ f. (f.worked ≡ true) × IsAnswered D.answer f.parcel) }
        ensures first { TakesFirst (untold self.old) (untold self.new) result }
        ensures unchanged { IfNone result (jobs_in self.new.dispatching
            ≡ jobs_in self.old.dispatching) }
        ensures unfinished { IfNone result (FoundUnfinished (untold self.old)
            (length (jobs_in self.old.dispatching)) (looks_in self.old.dispatching)
            (looks_in self.new.dispatching)) }
        ensures waits { untold self.new ≡ untold self.old }
        ensures given { self.new.dispatching.given ≡ self.old.dispatching.given }
        ensures limit { self.new.dispatching.places ≡ self.old.dispatching.places }
        ensures looks { looks_in self.old.dispatching ≤ looks_in self.new.dispatching }
        ensures alone { self.old.by_hands ≡ false → IsNone result
            ↔ (jobs_in self.old.dispatching ≡ []) }
        ensures oldest { self.old.by_hands ≡ false → IfSome result (λ f.
            jobs_in self.old.dispatching ≡ job_of f.parcel ∷ jobs_in self.new.dispatching) }
        ensures looked { self.old.by_hands ≡ true → IfNone result (looks_in self.new.dispatching
            ≡ looks_in self.old.dispatching + length (jobs_in self.old.dispatching)) }
        ensures missed { self.old.by_hands ≡ true
            → IfNone result (MissedEach self.old.dispatching self.new.dispatching) }
        ensures tickets { self.new.dispatching.put ++ self.new.later
            ≡ self.old.dispatching.put ++ self.old.later }
        ensures hands { SameHands self.old self.new }
        ensures team { team_of self.new ≡ team_of self.old }
        ensures keeps { KeepsTo self.new }
    {
        let found = match &mut self.manner {
            Manner::Alone(duty) => self.dispatcher.answer_oldest(duty),
            Manner::ByHands(kept) => {
                put_oldest(
                    &self.rt,
                    &mut self.dispatcher,
                    &self.wakers,
                    &mut self.later,
                );
                step_each(&self.rt, kept);
                self.dispatcher.collect_first()
            }
        };
        let parcel = found?;
        Some(Finished {
            parcel,
            worked: true,
        })
    }
}
