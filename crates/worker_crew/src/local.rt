//! Workers on the caller's own thread.
ghost use Rattle.std.specs.Prelude.{◌≡◌, ◌≤◌, ◌<◌, ◌↔◌, ◌+◌, [], ◌∷◌, ◌++◌, length, drop};
ghost use Rattle.std.specs.Prelude.{slice_get, option_to_list, true, Some, None, IsNone, IsErr};
ghost use Rattle.std.specs.Prelude.{IsOk};
ghost use Rattle.std.specs.Prelude.{IfNone, IfSome, IfOk, IfErr, OnOk, OnErr, IsPermutation};
ghost use Rattle.std.specs.List.{remove};
ghost use Rattle.std.specs.VecDeque.{deque_capacity};
ghost use Rattle.memory_count.specs.Faults.{HasCause};
ghost use Rattle.worker_crew.specs.Jobs.{job_of, HasRoom, IsAnswered, IsFull, TakesFirst};
ghost use Rattle.worker_crew.specs.Jobs.{FoundUnfinished};
ghost use Rattle.worker_crew.specs.Local.{Works, answered, given_to, out_of};

use crate::workers::{Finished, Workers};
use memory_count::{Memory, NoMemory};
use rpc_base::{MOST_GIVEN, RequestNo, SessionNo};
use rpc_outside::Duty;
use std::collections::VecDeque;
use std::marker::Model;
use worker_board::Parcel;

/// Workers that work a job when they are told to, on the thread that tells them. Contracts see the
/// jobs that wait, in order of giving, and those that are worked, in order of working.
pub struct LocalWorkers<D: Duty> {
    duty: D,
    jobs: u32,
    given: u64,
    waiting: VecDeque<Parcel>,
    worked: VecDeque<Parcel>,
}

// Written by hand, so that whoever lets workers go makes a call, and proves nothing of their parts.
impl<D: Duty + Drop> Drop for LocalWorkers<D> {
    fn drop(self) {
        let LocalWorkers {
            duty: _duty,
            jobs: _,
            given: _,
            waiting: _waiting,
            worked: _worked,
        } = self;
    }
}

impl<D: Duty> Model for LocalWorkers<D> {
    ghost use Rattle.std.specs.Prelude.{◌≤◌};
    ghost use Rattle.std.specs.VecDeque.{deque_capacity};
    ghost use Rattle.worker_crew.specs.Local.{Local, IsSound};

    ghost Value = { Local };

    ghost view = { λ w. record {
      limit = w.jobs;
      given = w.given;
      waiting = w.waiting.items;
      worked = w.worked.items;
    } };

    ghost invariant = { λ w. IsSound D.answer (record {
      limit = w.jobs;
      given = w.given;
      waiting = w.waiting.items;
      worked = w.worked.items;
    }) × (w.jobs ≤ deque_capacity w.waiting) × (w.jobs ≤ deque_capacity w.worked) };
}

impl<D: Duty> LocalWorkers<D> {
    /// Workers by this duty, to which at most `jobs` jobs may be given and not taken. The memory
    /// for them is taken here; `NoMemory` never comes for no jobs.
    pub fn new(memory: &mut Memory, duty: D, jobs: u32) -> Result<LocalWorkers<D>, NoMemory>
    where
        D: Drop,
        ensures made { IfOk result (λ w. w ≡ record {
          limit = jobs;
          given = 0;
          waiting = [];
          worked = [];
        }) }
        ensures succeeds { jobs ≡ 0 → IsOk result }
        ensures cause { HasCause memory.old memory.new result }
    {
        let waiting = memory.queue(jobs as usize)?;
        let worked = memory.queue(jobs as usize)?;
        Ok(LocalWorkers {
            duty,
            jobs,
            given: 0,
            waiting,
            worked,
        })
    }

    /// Works waiting job `j`, in order of giving from 0 on, and tells whose it is. `None` comes
    /// exactly where there is no such job, and then nothing changed.
    pub fn work(&mut self, j: u32) -> Option<(SessionNo, RequestNo)>
        ensures none { IsNone result ↔ (length self.old.waiting ≤ j) }
        ensures unchanged { IfNone result (self.new ≡ self.old) }
        ensures worked { IfSome result (λ named. Works D.answer j named.0 named.1 self.old
            self.new) }
    {
        let Some(job) = take_out(&mut self.waiting, j) else {
            return None;
        };
        let (session, request) = (job.session, job.request);
        let worked = answer_job(&self.duty, job);
        put_last(&mut self.worked, worked);
        Some((session, request))
    }
}

fn take_out(waiting: &mut VecDeque<Parcel>, j: u32) -> Option<Parcel>
    ensures job { result ≡ slice_get waiting.old.items j }
    ensures others { waiting.new.items ≡ remove waiting.old.items j }
    ensures fewer { IfSome result (λ _. length waiting.new.items + 1 ≡ length waiting.old.items) }
    ensures unchanged { IfNone result (waiting.new ≡ waiting.old) }
    ensures capacity { deque_capacity waiting.new ≡ deque_capacity waiting.old }
{
    waiting.remove(j as usize)
}

fn put_last(queue: &mut VecDeque<Parcel>, job: Parcel)
    requires { length queue.old.items < deque_capacity queue.old }
    ensures items { queue.new.items ≡ queue.old.items ++ job ∷ [] }
    ensures capacity { deque_capacity queue.new ≡ deque_capacity queue.old }
{
    queue.push_back_reserved(job);
}

fn take_first(queue: &mut VecDeque<Parcel>) -> Option<Parcel>
    ensures items { queue.old.items ≡ option_to_list result ++ queue.new.items }
    ensures rest { queue.new.items ≡ drop 1 queue.old.items }
    ensures capacity { deque_capacity queue.new ≡ deque_capacity queue.old }
{
    queue.pop_front()
}

/// The job with its answer in its buffer.
pub(crate) fn answer_job<D: Duty>(duty: &D, job: Parcel) -> Parcel
    requires { HasRoom D.answer job }
    ensures answered { result ≡ answered D.answer job }
    ensures answer { IsAnswered D.answer result }
{
    let mut job = job;
    duty.handle(job.req_type, job.ask.bytes(), job.out.whole_mut());
    job
}

impl<D: Duty> Workers for LocalWorkers<D> {
    ghost answer = { D.answer };

    ghost limit = { λ w. w.limit };

    ghost out = { out_of };

    ghost given = { λ w. w.given };

    ghost worked = { λ w. Some w.worked };

    ghost waiting = { λ w. Some w.waiting };

    ghost looks = { λ _. 0 };

    ghost team = { λ _. None };

    /// As the trait says; the job waits behind all others.
    fn give(&mut self, job: Parcel) -> Result<(), Parcel>
        requires room { HasRoom D.answer job }
        ensures waits { OnOk result (self.new ≡ given_to job self.old) }
        ensures full { IsErr result ↔ IsFull self.old.limit (length (out_of self.old))
            self.old.given }
        ensures out { OnOk result (IsPermutation (job_of job ∷ out_of self.old) (out_of self.new)) }
        ensures given { OnOk result (self.new.given ≡ self.old.given + 1) }
        ensures handed_back { IfErr result (λ back. back ≡ job) }
        ensures unchanged { OnErr result ((out_of self.new ≡ out_of self.old)
            × (self.new.given ≡ self.old.given)) }
        ensures same { OnErr result (self.new ≡ self.old) }
        ensures worked { Some self.new.worked ≡ Some self.old.worked }
        ensures limit { self.new.limit ≡ self.old.limit }
    {
        if self.full() {
            return Err(job);
        }
        put_last(&mut self.waiting, job);
        self.given += 1;
        Ok(())
    }

    fn full(&self) -> bool {
        self.waiting.len() + self.worked.len() >= self.jobs as usize || self.given >= MOST_GIVEN
    }

    /// As the trait says; nothing else changes.
    fn take(&mut self) -> Option<Finished>
        ensures lists { self.new ≡ record self.old { worked = drop 1 self.old.worked } }
        ensures out { IfSome result (λ f. IsPermutation (out_of self.old)
            (job_of f.parcel ∷ out_of self.new)) }
        ensures answered { IfSome result (λ f. (f.worked ≡ true) × IsAnswered D.answer f.parcel) }
        ensures first { TakesFirst (Some self.old.worked) (Some self.new.worked) result }
        ensures unchanged { IfNone result (out_of self.new ≡ out_of self.old) }
        ensures unfinished { IfNone result (FoundUnfinished (Some self.old.worked)
            (length (out_of self.old)) 0 0) }
        ensures given { self.new.given ≡ self.old.given }
        ensures limit { self.new.limit ≡ self.old.limit }
    {
        let parcel = take_first(&mut self.worked)?;
        Some(Finished {
            parcel,
            worked: true,
        })
    }
}
