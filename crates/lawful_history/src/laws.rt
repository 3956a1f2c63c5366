//! Laws of lawful histories.
ghost use Rattle.lawful_history.specs.Checked.{LawfulIsChecked};
ghost use Rattle.lawful_history.specs.Laws.{RunsAreLawful, WholeFrontsAreLawful};
ghost use Rattle.lawful_history.specs.OwnTold.{WhatIsOwnIsTold, WhatIsToldIsOwn};

/// A history is lawful where each node's facts are its Made and a run, the network notes its own
/// events, each handler runs on its call's bytes and each call ends with its answer, no message
/// finds a full ring before a repeat, a rollback and a restart, and each fact has the bytes that
/// its line shows.
pub fn runs_are_lawful()
    ensures { RunsAreLawful }
{}

/// A front of a lawful history is lawful where no node is in the midst of a poll at its end.
pub fn whole_fronts_are_lawful()
    ensures { WholeFrontsAreLawful }
{}

/// Where the facts so far tell that the next one is of a call, it is so: a call that begins was
/// asked, a handler runs on its call's type and bytes, and a call ends with its handler's answer. A
/// handler's answer is to be the service's.
pub fn what_is_told_is_own()
    ensures { WhatIsToldIsOwn }
{}

/// In a history that is own, and in which the numbers of each endpoint are used once, each fact's
/// call is told by the facts before it.
pub fn what_is_own_is_told()
    ensures { WhatIsOwnIsTold }
{}

/// A history is lawful exactly where each node's facts are its Made and a run, the network notes
/// its own events, each fact's call is told by the facts before it, no message finds a full ring
/// before a repeat, a rollback and a restart, and each fact has the bytes that its line shows.
pub fn lawful_is_checked()
    ensures { LawfulIsChecked }
{}
