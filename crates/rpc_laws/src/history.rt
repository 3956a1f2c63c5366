//! A history: the facts of a run in order of happening.
ghost use Rattle.std.specs.Prelude.{◌≡◌, List};
ghost use Rattle.rpc_base.specs.declared.fact.Fact.{Fact};

use rpc_base::Fact;
use std::marker::Model;

/// The facts of a run, in order of happening. Contracts see the list of facts.
#[derive(Debug, Drop)]
pub struct History {
    facts: Vec<Fact>,
}

impl Model for History {
    ghost Value = { List Fact };

    ghost view = { λ h. h.facts.items };
}

impl History {
    /// Takes the facts as they are; it takes no memory.
    pub fn of(facts: Vec<Fact>) -> History
        ensures { result ≡ facts.items }
    {
        History { facts }
    }

    /// Lends the facts.
    pub fn facts(&self) -> &[Fact]
        ensures { result.now ≡ self.now }
    {
        self.facts.as_slice()
    }
}
