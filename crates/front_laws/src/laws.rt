//! Laws of every run of one node, whatever its service, its number and its limits.
ghost use Rattle.front_laws.specs.Laws.{FactsTellTheState, LivesAreCut, OneFrontIsAPoll};
ghost use Rattle.front_laws.specs.Laws.{OneGroupIsNext, RunsAreCut};

/// Where a node isn't in the midst of a poll its life is cut: the facts so far are one, and those
/// that follow are groups.
pub fn lives_are_cut()
    ensures { LivesAreCut }
{}

/// Where a node isn't in the midst of a poll the facts so far of a run are a run.
pub fn runs_are_cut()
    ensures { RunsAreCut }
{}

/// How a run leaves its node is told by its facts: each changes the tables at the node's clock, and
/// those of a poll at the clock that its Polled tells. A restart makes the node anew.
pub fn facts_tell_the_state()
    ensures { FactsTellTheState }
{}

/// Of all fronts of some facts at most one is a poll of a node, and it leaves one state.
pub fn one_front_is_a_poll()
    ensures { OneFrontIsAPoll }
{}

/// Facts of one life that end outside of a poll, and of which no shorter front does, are the next
/// group of each run that goes on with them.
pub fn one_group_is_next()
    ensures { OneGroupIsNext }
{}
