//! What an endpoint asks of its workers.
ghost use Rattle.std.specs.Prelude.{◌≡◌, ◌≤◌, ◌+◌, ◌∷◌, ◌++◌, [], ◌↔◌, ℕ, List, Option, length};
ghost use Rattle.std.specs.Prelude.{option_map, true, IsTrue};
ghost use Rattle.std.specs.Prelude.{IsErr, IfErr, IfSome, IfNone, OnOk, OnErr, IsPermutation};
ghost use Rattle.worker_board.specs.declared.Parcel.{Parcel};
ghost use Rattle.worker_crew.specs.Crews.{Team};
ghost use Rattle.worker_crew.specs.Jobs.{Job, job_of, HasRoom, IsAnswered, IsFull, TakesFirst};
ghost use Rattle.worker_crew.specs.Jobs.{FoundUnfinished};

use worker_board::Parcel;

/// A job that comes back.
#[derive(Drop)]
pub struct Finished {
    pub parcel: Parcel,
    /// Whether its buffer has the answer.
    pub worked: bool,
}

/// Workers of background jobs.
pub trait Workers {
    // What is answered to a request of a type. It belongs to the workers' type.
    ghost answer: { ℕ → List ℕ → List ℕ };

    // How many jobs may be out at one time.
    ghost limit: { Self → ℕ };

    // The jobs given and not taken, in no order that matters.
    ghost out: { Self → List Job };

    // How many jobs were given so far.
    ghost given: { Self → ℕ };

    // The worked jobs, in the order in which they are taken, where the workers tell them.
    ghost worked: { Self → Option (List Parcel) };

    // The jobs that wait to be worked, in the order of giving, where the workers tell them.
    ghost waiting: { Self → Option (List Parcel) };

    // How often a job was looked at and found unfinished.
    ghost looks: { Self → ℕ };

    // The hands that work for them, where there are any. No call of a job changes these.
    ghost team: { Self → Option Team };

    /// Gives a job, whose buffer for the answer has the answer's length. Err comes exactly where
    /// the workers are full, and hands the job back.
    fn give(&mut self, job: Parcel) -> Result<(), Parcel>
        requires room { HasRoom answer job }
        ensures full { IsErr result ↔ IsFull (limit self.old) (length (out self.old))
            (given self.old) }
        ensures out { OnOk result (IsPermutation (job_of job ∷ out self.old) (out self.new)) }
        ensures given { OnOk result (given self.new ≡ given self.old + 1) }
        ensures handed_back { IfErr result (λ back. back ≡ job) }
        ensures unchanged { OnErr result ((out self.new ≡ out self.old)
            × (given self.new ≡ given self.old)) }
        ensures worked { worked self.new ≡ worked self.old }
        ensures waits { OnOk result (waiting self.new
            ≡ option_map (λ jobs. jobs ++ job ∷ []) (waiting self.old)) }
        ensures limit { limit self.new ≡ limit self.old }
        ensures looks { looks self.new ≡ looks self.old }
        ensures team { team self.new ≡ team self.old };

    /// Whether as many jobs as the limit are given and not taken, or 2^61 jobs were given so far.
    fn full(&self) -> bool
        ensures { IsTrue result
            ↔ IsFull (limit self.now) (length (out self.now)) (given self.now) };

    /// Takes a job that is worked: it was given, its buffer has the answer, and it comes once.
    fn take(&mut self) -> Option<Finished>
        ensures out { IfSome result (λ f. IsPermutation (out self.old)
            (job_of f.parcel ∷ out self.new)) }
        ensures answered { IfSome result (λ f. (f.worked ≡ true) × IsAnswered answer f.parcel) }
        ensures first { TakesFirst (worked self.old) (worked self.new) result }
        ensures unchanged { IfNone result (out self.new ≡ out self.old) }
        ensures unfinished { IfNone result (FoundUnfinished (worked self.old)
            (length (out self.old)) (looks self.old) (looks self.new)) }
        ensures waits { waiting self.new ≡ waiting self.old }
        ensures given { given self.new ≡ given self.old }
        ensures limit { limit self.new ≡ limit self.old }
        ensures looks { looks self.old ≤ looks self.new }
        ensures team { team self.new ≡ team self.old };
}
