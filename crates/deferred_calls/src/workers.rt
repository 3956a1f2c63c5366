//! A desk as an endpoint's workers.
ghost use Rattle.std.specs.Prelude.{◌≡◌, ◌≤◌, ◌↔◌, ◌+◌, ◌<◌, ◌∷◌, ◌++◌, [], length, drop, true};
ghost use Rattle.std.specs.Prelude.{Some, option_to_list, false, IsTrue};
ghost use Rattle.std.specs.Prelude.{IsErr, IfErr, IfSome, IfNone, OnOk, OnErr, IsPermutation};
ghost use Rattle.worker_crew.specs.Jobs.{job_of, HasRoom, IsAnswered, IsFull, TakesFirst};
ghost use Rattle.worker_crew.specs.Jobs.{FoundUnfinished};
ghost use Rattle.deferred_calls.specs.Desks.{hands_of, open_of, out_of};
ghost use Rattle.deferred_calls.specs.Moves.{given_to};
ghost use Rattle.std.specs.VecDeque.{deque_capacity};

use crate::desk::Desk;
use crate::job::Numbered;
use rpc_base::MOST_GIVEN;
use rpc_outside::Duty;
use std::collections::VecDeque;
use worker_board::Parcel;
use worker_crew::{Finished, Workers};

impl<D: Duty> Workers for Desk<D> {
    ghost answer = { D.answer };

    ghost limit = { λ d. d.limit };

    ghost out = { out_of };

    ghost given = { λ d. d.given };

    ghost worked = { λ d. Some d.answered };

    ghost waiting = { λ d. Some (open_of d) };

    ghost looks = { λ _. 0 };

    ghost team = { λ d. Some (hands_of d) };

    /// As the trait says; the job gets the next number, and waits behind all others.
    fn give(&mut self, job: Parcel) -> Result<(), Parcel>
        requires room { HasRoom D.answer job }
        ensures gives { OnOk result (self.new ≡ given_to job self.old) }
        ensures full { IsErr result ↔ IsFull self.old.limit (length (out_of self.old))
            self.old.given }
        ensures out { OnOk result (IsPermutation (job_of job ∷ out_of self.old) (out_of self.new)) }
        ensures given { OnOk result (self.new.given ≡ self.old.given + 1) }
        ensures handed_back { IfErr result (λ back. back ≡ job) }
        ensures unchanged { OnErr result ((out_of self.new ≡ out_of self.old)
            × (self.new.given ≡ self.old.given)) }
        ensures same { OnErr result (self.new ≡ self.old) }
        ensures worked { Some self.new.answered ≡ Some self.old.answered }
        ensures waits { OnOk result (Some (open_of self.new)
            ≡ Some (open_of self.old ++ job ∷ [])) }
        ensures limit { self.new.limit ≡ self.old.limit }
        ensures team { Some (hands_of self.new) ≡ Some (hands_of self.old) }
    {
        if self.full() {
            return Err(job);
        }
        let number = self.given;
        put_behind(
            &mut self.waiting,
            Numbered {
                number,
                parcel: job,
            },
        );
        self.given = number + 1;
        Ok(())
    }

    fn full(&self) -> bool
        ensures full { IsTrue result
            ↔ IsFull self.now.limit (length (out_of self.now)) self.now.given }
        ensures room { result ≡ false → length self.now.waiting + length self.now.handled
            + length self.now.answered < self.now.limit }
    {
        let out = self.waiting.len() + self.handled.len() + self.answered.len();
        out >= self.jobs as usize || self.given >= MOST_GIVEN
    }

    /// As the trait says; nothing else changes.
    fn take(&mut self) -> Option<Finished>
        ensures lists { self.new ≡ record self.old { answered = drop 1 self.old.answered } }
        ensures out { IfSome result (λ f. IsPermutation (out_of self.old)
            (job_of f.parcel ∷ out_of self.new)) }
        ensures answered { IfSome result (λ f. (f.worked ≡ true) × IsAnswered D.answer f.parcel) }
        ensures first { TakesFirst (Some self.old.answered) (Some self.new.answered) result }
        ensures unchanged { IfNone result (out_of self.new ≡ out_of self.old) }
        ensures unfinished { IfNone result (FoundUnfinished (Some self.old.answered)
            (length (out_of self.old)) 0 0) }
        ensures waits { Some (open_of self.new) ≡ Some (open_of self.old) }
        ensures given { self.new.given ≡ self.old.given }
        ensures limit { self.new.limit ≡ self.old.limit }
        ensures team { Some (hands_of self.new) ≡ Some (hands_of self.old) }
    {
        let parcel = take_first(&mut self.answered)?;
        Some(Finished {
            parcel,
            worked: true,
        })
    }
}

fn put_behind(queue: &mut VecDeque<Numbered>, job: Numbered)
    requires { length queue.old.items < deque_capacity queue.old }
    ensures items { queue.new.items ≡ queue.old.items ++ job ∷ [] }
    ensures capacity { deque_capacity queue.new ≡ deque_capacity queue.old }
{
    queue.push_back_reserved(job);
}

fn take_first(queue: &mut VecDeque<Parcel>) -> Option<Parcel>
    ensures items { queue.old.items ≡ option_to_list result ++ queue.new.items }
    ensures rest { queue.new.items ≡ drop 1 queue.old.items }
    ensures capacity { deque_capacity queue.new ≡ deque_capacity queue.old }
{
    queue.pop_front()
}
