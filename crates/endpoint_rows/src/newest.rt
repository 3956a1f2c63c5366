//! Workers that finish jobs in another order than they were given.
ghost use Rattle.std.specs.Prelude.{◌≡◌, [], IfOk, None};
ghost use Rattle.endpoint_rows.specs.Newest.{out_of};
ghost use Rattle.memory_count.specs.Faults.{HasCause};
ghost use Rattle.rpc_outside.specs.PlainAnswer.{background_answer};
ghost use Rattle.worker_crew.specs.Jobs.{HasRoom, IsAnswered, job_of};

use memory_count::{Memory, NoMemory};
use rpc_base::MOST_GIVEN;
use rpc_outside::{Duty, PlainDuty};
use std::collections::VecDeque;
use std::marker::Model;
use worker_board::Parcel;
use worker_crew::{Finished, Workers};

/// Workers by the plain duty, which work each job as it is given, and give the newest back first.
#[derive(Drop)]
pub struct NewestFirst {
    limit: u32,
    given: u64,
    worked: VecDeque<Parcel>,
}

impl Model for NewestFirst {
    ghost use Rattle.std.specs.Prelude.{◌≤◌};
    ghost use Rattle.std.specs.List.{AllByRecursion};
    ghost use Rattle.std.specs.VecDeque.{deque_capacity};
    ghost use Rattle.endpoint_rows.specs.Newest.{Newest};
    ghost use Rattle.rpc_outside.specs.PlainAnswer.{background_answer};
    ghost use Rattle.worker_crew.specs.Jobs.{IsAnswered};

    ghost Value = { Newest };

    ghost view = { λ w. record {
      limit = w.limit;
      given = w.given;
      worked = w.worked.items;
    } };

    ghost invariant = { λ w. AllByRecursion (IsAnswered background_answer) w.worked.items
        × (w.limit ≤ deque_capacity w.worked) };
}

impl NewestFirst {
    /// Workers to which at most so many jobs may be given and not taken.
    pub fn new(memory: &mut Memory, limit: u32) -> Result<NewestFirst, NoMemory>
        ensures made { IfOk result (λ w. w ≡ record { limit = limit; given = 0; worked = [] }) }
        ensures cause { HasCause memory.old memory.new result }
    {
        let worked = memory.queue(limit as usize)?;
        Ok(NewestFirst {
            limit,
            given: 0,
            worked,
        })
    }
}

// The job with its answer in its buffer.
fn work<D: Duty>(duty: &D, job: Parcel) -> Parcel
    requires { HasRoom D.answer job }
    ensures job { job_of result ≡ job_of job }
    ensures answered { IsAnswered D.answer result }
{
    let mut job = job;
    duty.handle(job.req_type, job.ask.bytes(), job.out.whole_mut());
    job
}

impl Workers for NewestFirst {
    ghost answer = { background_answer };

    ghost limit = { λ w. w.limit };

    ghost out = { out_of };

    ghost given = { λ w. w.given };

    ghost worked = { λ _. None };

    ghost waiting = { λ _. None };

    ghost looks = { λ _. 0 };

    ghost team = { λ _. None };

    fn give(&mut self, job: Parcel) -> Result<(), Parcel> {
        if self.full() {
            return Err(job);
        }
        self.worked.push_front_reserved(work(&PlainDuty, job));
        self.given += 1;
        Ok(())
    }

    fn full(&self) -> bool {
        self.worked.len() >= self.limit as usize || self.given >= MOST_GIVEN
    }

    fn take(&mut self) -> Option<Finished> {
        let parcel = self.worked.pop_front()?;
        Some(Finished {
            parcel,
            worked: true,
        })
    }
}
