//! A dispatcher looks for a job that is done, or answers the oldest by itself.
ghost use Rattle.std.specs.Prelude.{◌≡◌, ◌+◌, ◌≤◌, ◌↔◌, [], ◌∷◌, length, IfSome, IfNone, IsNone};
ghost use Rattle.std.specs.Prelude.{IsPermutation};
ghost use Rattle.worker_board.specs.Seats.{AllRetired};
ghost use Rattle.worker_crew.specs.Jobs.{job_of, IsAnswered};
ghost use Rattle.worker_crew.specs.Places.{TookNoneBack};
ghost use Rattle.worker_crew.specs.Dispatching.{jobs_in, looks_in, MissedEach, SameCrew};

use super::Dispatcher;
use crate::local::answer_job;
use rpc_outside::Duty;
use worker_board::Parcel;

impl<D: Duty> Dispatcher<D> {
    /// Collects the first finished job in the order of giving. None comes exactly where each job
    /// that is out was looked at and found unfinished.
    pub(crate) fn collect_first(&mut self) -> Option<Parcel>
        ensures same { SameCrew self.old self.new }
        ensures out { IfSome result (λ x. IsPermutation (jobs_in self.old)
            (job_of x ∷ jobs_in self.new)) }
        ensures answered { IfSome result (IsAnswered D.answer) }
        ensures unchanged { IfNone result (jobs_in self.new ≡ jobs_in self.old) }
        ensures looked { IfNone result (looks_in self.new
            ≡ looks_in self.old + length (jobs_in self.old)) }
        ensures missed { IfNone result (MissedEach self.old self.new) }
        ensures looks { looks_in self.old ≤ looks_in self.new }
        ensures none_back { TookNoneBack self.old.view → TookNoneBack self.new.view }
    {
        for i in 0..self.jobs() {
            if let Some(job) = self.collect_at(i) {
                return Some(job);
            }
        }
        None
    }

    /// Takes the oldest job back and answers it. None comes exactly where no job is out. No hand is
    /// out.
    pub(crate) fn answer_oldest(&mut self, duty: &D) -> Option<Parcel>
        requires { AllRetired self.old.view }
        ensures same { SameCrew self.old self.new }
        ensures none { IsNone result ↔ (jobs_in self.old ≡ []) }
        ensures first { IfSome result (λ x. jobs_in self.old ≡ job_of x ∷ jobs_in self.new) }
        ensures answered { IfSome result (IsAnswered D.answer) }
        ensures unchanged { IfNone result (jobs_in self.new ≡ jobs_in self.old) }
        ensures looks { looks_in self.new ≡ looks_in self.old }
    {
        if self.jobs() == 0 {
            return None;
        }
        match self.take_back_at(0) {
            Some(job) => Some(answer_job(duty, job)),
            None => self.collect_at(0),
        }
    }
}
