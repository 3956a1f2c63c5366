//! The law of a run that relays.
ghost use Rattle.relay_turns.specs.Deferred.{TurnsKeep};
ghost use Rattle.rpc_turns.specs.Moments.{outside};

use rpc_outside::{Clock, Duty, Link, Recorder, Service};

/// Whatever turns a run makes that relays, none of which wanted for memory, they keep the deferred
/// promise over the list of all that they noted: each job that was given has, behind its Given and
/// in its turn, an Asked of its own on the session with the other server, of its type less 128,
/// with its bytes, or the refusal of that call; it is answered in the turn of that refusal or in
/// that of the call's Done; and the counts are of the jobs that were answered with the other
/// server's answers, and of those that were answered here.
pub fn turns_note<V: Service, D: Duty, L: Link, C: Clock, R: Recorder>()
    ensures { TurnsKeep V.Service D.answer (outside L.Link C.gave R.log) }
{}
