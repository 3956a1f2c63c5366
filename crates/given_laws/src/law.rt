//! The Given facts of a poll.
ghost use Rattle.given_laws.specs.Laws.{PollsGive};

/// The jobs that the workers of an endpoint are given in a poll are those of its Given facts, in
/// order: no job is given and finished in one poll.
pub fn polls_give()
    ensures { PollsGive }
{}
