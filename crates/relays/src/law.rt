//! What a turn of an endpoint leaves.
ghost use Rattle.std.specs.Prelude.{List, []};
ghost use Rattle.deferred_calls.specs.Desks.{Jobs};
ghost use Rattle.relays.specs.Relaying.{GoesOn, Relaying, Stands};
ghost use Rattle.worker_board.specs.declared.Parcel.{Parcel};

/// Whatever jobs a desk is given, and whichever answered ones are taken: the jobs that were asked
/// are still those whose handles are out, and each job that was given isn't answered, or is counted
/// once.
pub fn relays_stand()
    ensures { (gave : List Parcel) (old new : Jobs) (r : Relaying) → GoesOn gave old new
        → Stands old [] r → Stands new [] r }
{}
