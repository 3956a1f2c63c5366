//! What an application does with its calls that are over.
ghost use Rattle.std.specs.Prelude.{[], ◌∷◌, List, ⊤};
ghost use Rattle.client_core.specs.declared.outcome.Done.{Done};
ghost use Rattle.node_steps.specs.Given.{Gave};

use client_core::Done;

/// Takes the calls of an endpoint that are over.
pub trait Continuation {
    // Whether these may be all calls that it was given, in the order of their ends. One that
    // doesn't tell says nothing here.
    ghost given: { Self → List Done → Type 0 } = { λ _ _. ⊤ };

    /// A call is over. Its buffers come back; where it ended Ok, `resp` holds the answer, and
    /// otherwise it has length 0.
    fn done(&mut self, done: Done)
        ensures { Gave given self.old self.new (done ∷ []) };
}
