//! What a node's workers hold, where they work on the world's own thread, agrees with the world's
//! list of worked jobs: each step of the world keeps it so.
ghost use Rattle.work_laws.specs.Laws.{MissesByOrder, PollsByOrder, StaysByNetwork, StaysByOthers};
ghost use Rattle.work_laws.specs.Laws.{StartsAnew, StaysIdle, WorksByOrder, WorksNext, WorksNone};

/// It stays so by the facts of another node.
pub fn stays_by_others()
    ensures { StaysByOthers }
{}

/// It stays so by the facts of the network.
pub fn stays_by_network()
    ensures { StaysByNetwork }
{}

/// It stays so by facts that work no job, run no handler and restart no node, where the node's jobs
/// stay.
pub fn stays_idle()
    ensures { StaysIdle }
{}

/// So it is of new workers at a restart of the node: neither they nor it have a job.
pub fn starts_anew()
    ensures { StartsAnew }
{}

/// The job that the workers work is the one that the world says, and so it is afterwards.
pub fn works_by_order()
    ensures { WorksByOrder }
{}

/// Where the workers have no job at a place to work, nor has the world.
pub fn misses_by_order()
    ensures { MissesByOrder }
{}

/// Where no job waits, all were worked.
pub fn works_none()
    ensures { WorksNone }
{}

/// The first job that waits is worked and then all others: so all are worked.
pub fn works_next()
    ensures { WorksNext }
{}

/// A poll at which the workers hand back the jobs that they worked first, and take others, is the
/// one that the world says, and so it is afterwards.
pub fn polls_by_order()
    ensures { PollsByOrder }
{}
