//! Why a line was not read.
ghost use Rattle.std.specs.Prelude.{◌≡◌};

use crate::bad::BadWhy;
use memory_count::NoMemory;

/// A line is bad, or there is no memory for its command.
#[derive(Clone, Copy)]
pub enum Refusal {
    Why(BadWhy),
    NoMemory,
}

impl From<BadWhy> for Refusal {
    ghost use Rattle.script_grammar.specs.declared.refusal.Refusal.{Refusal};

    ghost from_gives = { λ why refusal. refusal ≡ Refusal.Why why };

    fn from(why: BadWhy) -> Self {
        Refusal::Why(why)
    }
}

impl From<NoMemory> for Refusal {
    ghost use Rattle.script_grammar.specs.declared.refusal.Refusal.{Refusal};

    ghost from_gives = { λ _ refusal. refusal ≡ Refusal.NoMemory };

    fn from(_error: NoMemory) -> Self {
        Refusal::NoMemory
    }
}
