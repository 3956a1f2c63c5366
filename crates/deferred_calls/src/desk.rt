//! A desk, and what its handles do.
ghost use Rattle.std.specs.Prelude.{◌≡◌, ◌≤◌, ◌<◌, ◌+◌, ◌^◌, ◌++◌, [], ◌∷◌, length, drop};
ghost use Rattle.std.specs.Prelude.{option_to_list};
ghost use Rattle.std.specs.Prelude.{slice_get, ℕ, Some, IfOk, IfErr, OnOk, OnErr, IsErr, ◌↔◌, ◌≢◌};
ghost use Rattle.std.specs.Prelude.{IfSome, IfNone, IsPermutation};
ghost use Rattle.std.specs.List.{remove};
ghost use Rattle.std.specs.VecDeque.{deque_capacity};
ghost use Rattle.memory_count.specs.Faults.{HasCause};
ghost use Rattle.worker_crew.specs.Jobs.{HasRoom, IsAnswered};
ghost use Rattle.worker_crew.specs.Local.{answered};
ghost use Rattle.message_buffer.specs.Buffer.{bytes_of};
ghost use Rattle.deferred_calls.specs.Desks.{HasNumbers, IsSound, out_of};
ghost use Rattle.deferred_calls.specs.Moves.{HandsOut, IsHandleOf, Answers, IsFirstOf, TakesOut};
ghost use Rattle.deferred_calls.specs.Moves.{with_answer};

use crate::checked::Checked;
use crate::job::{Deferred, HandleOut, Numbered};
use memory_count::{Memory, NoMemory};
use rpc_outside::Duty;
use std::collections::VecDeque;
use std::marker::Model;
use worker_board::Parcel;

/// Workers whose jobs are answered through handles. Contracts see the jobs that wait for a handle,
/// those whose handle is out, and those that are answered.
#[derive(Drop)]
pub struct Desk<D: Duty> {
    pub(crate) duty: D,
    pub(crate) jobs: u32,
    pub(crate) given: u64,
    pub(crate) waiting: VecDeque<Numbered>,
    pub(crate) handled: VecDeque<HandleOut>,
    pub(crate) answered: VecDeque<Parcel>,
}

impl<D: Duty> Model for Desk<D> {
    ghost use Rattle.std.specs.Prelude.{◌≤◌};
    ghost use Rattle.std.specs.VecDeque.{deque_capacity};
    ghost use Rattle.deferred_calls.specs.Desks.{Jobs, IsSound};

    ghost Value = { Jobs };

    ghost view = { λ d. record {
      limit = d.jobs;
      given = d.given;
      waiting = d.waiting.items;
      handled = d.handled.items;
      answered = d.answered.items;
    } };

    ghost invariant = { λ d. IsSound D.answer (record {
      limit = d.jobs;
      given = d.given;
      waiting = d.waiting.items;
      handled = d.handled.items;
      answered = d.answered.items;
    }) × (d.jobs ≤ deque_capacity d.waiting) × (d.jobs ≤ deque_capacity d.handled)
        × (d.jobs ≤ deque_capacity d.answered) };
}

impl<D: Duty> Desk<D> {
    /// A desk by this duty, to which at most `jobs` jobs may be given and not taken. The memory for
    /// them is taken here.
    pub fn new(memory: &mut Memory, duty: D, jobs: u32) -> Result<Desk<D>, NoMemory>
    where
        D: Drop,
        ensures made { IfOk result (λ d. d ≡ record {
          limit = jobs;
          given = 0;
          waiting = [];
          handled = [];
          answered = [];
        }) }
        ensures cause { HasCause memory.old memory.new result }
    {
        let waiting = memory.queue(jobs as usize)?;
        let handled = memory.queue(jobs as usize)?;
        let answered = memory.queue(jobs as usize)?;
        Ok(Desk {
            duty,
            jobs,
            given: 0,
            waiting,
            handled,
            answered,
        })
    }

    /// What always holds of its jobs.
    pub fn sound(&self)
        ensures sound { IsSound D.answer self.now }
        ensures given { self.now.given < 2 ^ 64 }
    {
        let _given = self.given;
    }

    /// A handle for the oldest job that has none; `None` comes exactly where each has one.
    pub fn next(&mut self) -> Option<Deferred>
        ensures hands_out { HandsOut result self.old self.new }
        ensures handle { IfSome result (IsHandleOf self.new) }
        ensures out { out_of self.new ≡ out_of self.old }
    {
        let Some(job) = take_oldest(&mut self.waiting) else {
            return None;
        };
        remember(&mut self.handled, &job);
        Some(Deferred::of(job))
    }

    /// Answers the job of a handle by the duty.
    pub fn work_here(&mut self, handle: Deferred)
        requires handle { IsHandleOf self.old handle }
        ensures answers { Answers D.answer handle self.old self.new }
        ensures out { IsPermutation (out_of self.old) (out_of self.new) }
    {
        let job = handle.into_job();
        forget(&mut self.handled, &job);
        let Numbered { number: _, parcel } = job;
        let done = answer_job(&self.duty, parcel);
        put_last(&mut self.answered, done);
    }
}

impl<D: Checked> Desk<D> {
    /// Answers the job of a handle with these bytes. `Err` comes exactly where they aren't the
    /// answer, with the handle, and then nothing changed.
    pub fn answer(&mut self, handle: Deferred, out: &[u8]) -> Result<(), Deferred>
        requires handle { IsHandleOf self.old handle }
        ensures fits { IsErr result ↔ (out.now ≢ D.answer handle.parcel.req_type
            (bytes_of handle.parcel.ask)) }
        ensures answers { OnOk result (Answers D.answer handle self.old self.new) }
        ensures out { OnOk result (IsPermutation (out_of self.old) (out_of self.new)) }
        ensures back { IfErr result (λ back. back ≡ handle) }
        ensures unchanged { OnErr result (self.new ≡ self.old) }
    {
        if !self.duty.fits(handle.req_type(), handle.ask(), out) {
            return Err(handle);
        }
        let job = handle.into_job();
        forget(&mut self.handled, &job);
        let Numbered { number: _, parcel } = job;
        let done = write_answer(parcel, out);
        put_last(&mut self.answered, done);
        Ok(())
    }
}

// The first of the jobs that wait.
fn take_oldest(queue: &mut VecDeque<Numbered>) -> Option<Numbered>
    ensures items { queue.old.items ≡ option_to_list result ++ queue.new.items }
    ensures none { IfNone result ((queue.old.items ≡ []) × (queue.new.items ≡ [])) }
    ensures capacity { deque_capacity queue.new ≡ deque_capacity queue.old }
{
    queue.pop_front()
}

fn remember(handled: &mut VecDeque<HandleOut>, job: &Numbered)
    requires { length handled.old.items < deque_capacity handled.old }
    ensures items { handled.new.items ≡ handled.old.items ++ job.now ∷ [] }
    ensures capacity { deque_capacity handled.new ≡ deque_capacity handled.old }
{
    handled.push_back_reserved(HandleOut::of(job));
}

// Takes the job out of those whose handle is out.
fn forget(handled: &mut VecDeque<HandleOut>, job: &Numbered)
    requires rises { HasNumbers handled.old.items }
    requires there { (k : ℕ) × (slice_get handled.old.items k ≡ Some job.now) }
    ensures taken { TakesOut job.now handled.old.items handled.new.items }
    ensures capacity { deque_capacity handled.new ≡ deque_capacity handled.old }
{
    let place = place_of(handled, job.number);
    let _taken = take_at(handled, place);
}

fn take_at(handled: &mut VecDeque<HandleOut>, place: usize) -> Option<HandleOut>
    ensures others { handled.new.items ≡ remove handled.old.items place }
    ensures capacity { deque_capacity handled.new ≡ deque_capacity handled.old }
{
    handled.remove(place)
}

// Where the first job of this number stands.
fn place_of(handled: &VecDeque<HandleOut>, number: u64) -> usize
    ensures { IsFirstOf number handled.now.items result }
{
    for i in 0..handled.len() {
        if handled[i].number() == number {
            return i;
        }
    }
    handled.len()
}

fn put_last(queue: &mut VecDeque<Parcel>, job: Parcel)
    requires { length queue.old.items < deque_capacity queue.old }
    ensures items { queue.new.items ≡ queue.old.items ++ job ∷ [] }
    ensures capacity { deque_capacity queue.new ≡ deque_capacity queue.old }
{
    queue.push_back_reserved(job);
}

/// The job with its answer in its buffer.
fn answer_job<D: Duty>(duty: &D, job: Parcel) -> Parcel
    requires { HasRoom D.answer job }
    ensures answered { result ≡ answered D.answer job }
    ensures answer { IsAnswered D.answer result }
{
    let mut job = job;
    duty.handle(job.req_type, job.ask.bytes(), job.out.whole_mut());
    job
}

/// The job with these bytes in its buffer.
fn write_answer(job: Parcel, out: &[u8]) -> Parcel
    requires { length out.now ≡ job.out.len }
    ensures written { result ≡ with_answer out.now job }
    ensures answer { bytes_of result.out ≡ out.now }
{
    let mut job = job;
    job.out.write(0, out);
    job
}
