//! A dispatcher offers jobs, collects them and takes them back.
ghost use Rattle.std.specs.Prelude.{◌≡◌, ◌+◌, ◌<◌, ◌≤◌, ◌↔◌, [], ◌∷◌, ◌++◌, length, true, false};
ghost use Rattle.std.specs.Prelude.{IfSome, IfNone, IsSome, IsTrue};
ghost use Rattle.std.specs.List.{remove};
ghost use Rattle.worker_board.specs.Moves.{LostBefore, lost_at, missed, offered, ended_as};
ghost use Rattle.worker_board.specs.Seats.{AllRetired, generation, IsOffered, IsOfferOf};
ghost use Rattle.worker_board.specs.declared.view.End.TheVariants.{Collected, TakenBack};
ghost use Rattle.worker_crew.specs.Jobs.{job_of, HasRoom, IsAnswered, IsFull};
ghost use Rattle.worker_crew.specs.Places.{newest_job, put_at};
ghost use Rattle.worker_board.specs.Word.{offers_at};
ghost use Rattle.worker_crew.specs.Dispatching.{jobs_in, newest_ticket, place_at};

use super::Dispatcher;
use rpc_base::MOST_GIVEN;
use rpc_outside::Duty;
use std::sync::Wait;
use worker_board::{Parcel, Ticket};

impl<D: Duty> Dispatcher<D> {
    /// Whether as many jobs as there are places are out, or 2^61 jobs were given so far.
    pub(crate) fn is_full(&self) -> bool
        ensures { IsTrue result ↔ IsFull self.now.places (length (jobs_in self.now))
            self.now.given }
    {
        self.free.is_empty() || self.given >= MOST_GIVEN
    }

    /// How many jobs are out.
    pub(crate) fn jobs(&self) -> usize
        ensures { result ≡ length self.now.busy }
    {
        self.busy.len()
    }

    /// Offers a job at a free place, and names the offer.
    pub(crate) fn offer(&mut self, job: Parcel) -> Ticket
        requires room { HasRoom D.answer job }
        requires free { length self.old.busy < self.old.places }
        requires few { self.old.given < MOST_GIVEN }
        ensures jobs { jobs_in self.new ≡ jobs_in self.old ++ job_of job ∷ [] }
        ensures offered { self.new ≡ record self.old {
          given = self.old.given + 1;
          busy = self.old.busy ++ result.place ∷ [];
          view = offered self.old.view result.place job;
        } }
        ensures ticket { result ≡ newest_ticket self.new }
    {
        let Some(place) = self.free.pop() else {
            unreachable!()
        };
        let ticket = self.board.offer(&mut self.seat, place, job);
        self.busy.push_reserved(place);
        self.given += 1;
        ticket
    }

    /// Puts a ticket into the queue. False comes only where as many were put before as there are
    /// places, and then nothing changed. It may wait for a hand's step in the queue.
    pub(crate) fn put<R: Wait>(&mut self, rt: &R, ticket: Ticket) -> bool
        requires few { length self.old.put < self.old.given }
        ensures put { result ≡ true
            → self.new ≡ record self.old { put = self.old.put ++ ticket ∷ [] } }
        ensures full { result ≡ false → (self.new ≡ self.old)
            × (self.old.places ≤ length self.old.put) }
    {
        self.queue.put(rt, &mut self.putter, ticket)
    }

    /// Collects the job that stands at `i` in the order of giving, with its answer. None comes
    /// exactly where it was found unfinished, and then it is one more miss.
    pub(crate) fn collect_at(&mut self, i: usize) -> Option<Parcel>
        requires { i < length self.old.busy }
        ensures offered { IsOffered self.old.view (place_at i self.old) }
        ensures jobs { IfSome result (λ x. jobs_in self.old ≡ put_at i (job_of x)
            (jobs_in self.new)) }
        ensures job { IfSome result (λ x. newest_job (offers_at self.old.view.ledger
            (place_at i self.old)) ≡ job_of x) }
        ensures answered { IfSome result (IsAnswered D.answer) }
        ensures collected { IfSome result (λ _. self.new ≡ record self.old {
          busy = remove self.old.busy i;
          view = ended_as Collected self.old.view (place_at i self.old);
        }) }
        ensures missed { IfNone result (self.new ≡ record self.old {
          view = missed self.old.view (place_at i self.old);
        }) }
        ensures sure { LostBefore self.old.view (place_at i self.old)
            → AllRetired self.old.view → IsSome result }
    {
        let place = self.busy[i];
        let job = self.board.collect(&mut self.seat, place)?;
        self.busy.remove(i);
        self.free.push_reserved(place);
        Some(job)
    }

    /// Takes the job back that stands at `i` in the order of giving, as it was offered. None comes
    /// exactly where its take-back was lost.
    pub(crate) fn take_back_at(&mut self, i: usize) -> Option<Parcel>
        requires { i < length self.old.busy }
        ensures offered { IsOffered self.old.view (place_at i self.old) }
        ensures jobs { IfSome result (λ x. jobs_in self.old ≡ put_at i (job_of x)
            (jobs_in self.new)) }
        ensures unworked { IfSome result (IsOfferOf self.old.view (place_at i self.old)) }
        ensures room { IfSome result (HasRoom D.answer) }
        ensures taken_back { IfSome result (λ _. self.new ≡ record self.old {
          busy = remove self.old.busy i;
          view = ended_as TakenBack self.old.view (place_at i self.old);
        }) }
        ensures lost { IfNone result (self.new ≡ record self.old {
          view = lost_at self.old.view (place_at i self.old)
              (generation self.old.view (place_at i self.old));
        }) }
    {
        let place = self.busy[i];
        let job = self.board.take_back(&mut self.seat, place)?;
        self.busy.remove(i);
        self.free.push_reserved(place);
        Some(job)
    }
}
