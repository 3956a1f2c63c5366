//! The pool law.
ghost use Rattle.std.specs.Prelude.{ℕ};
ghost use Rattle.atomic_table.specs.Table.{State};
ghost use Rattle.shared_pool.specs.Promises.{KeepsPromises};
ghost use Rattle.shared_pool.specs.Rule.{PoolLaw, Slot};
ghost use Rattle.shared_pool.specs.declared.view.View.{View};

/// What the rule of a pool's table says, which holds between any two steps of its seats: no two
/// seats hold a loan of one place; each place and generation is lent at most once, and given back
/// at most once, after that; and a buffer at home stands in the slot of its place. That no word
/// falls is its field `seen`: no word is below what any seat noted of it.
#[tactic(auto, using(crate::proofs::PromisesLemmas::keeps_promises))]
pub fn pool_law()
    ensures { (capacity : ℕ) (s : State Slot View) → PoolLaw capacity s
        → KeepsPromises capacity s }
{}
