//! The desk law.
ghost use Rattle.std.specs.Prelude.{ℕ, List};
ghost use Rattle.deferred_calls.specs.Desks.{Jobs};
ghost use Rattle.deferred_calls.specs.Law.{Call, IsEmpty, KeepsLaw, Runs};

/// Whatever calls lead from an empty desk to another, each job is handed out at most once, answered
/// at most once and only when it was handed out, and taken at most once and only when it was
/// answered. As this holds of every list of calls, it holds of every front of one, which is the
/// order of time.
pub fn desk_law()
    ensures { (answer : ℕ → List ℕ → List ℕ) (number : ℕ) (calls : List Call) (old new : Jobs)
        → IsEmpty old → Runs answer calls old new → KeepsLaw answer number calls new }
{}
