//! Who runs the hands of a crew.
ghost use Rattle.std.specs.Prelude.{◌≡◌, ℕ, List, []};
ghost use Rattle.worker_crew.specs.Hands.{HandName, name_of};
ghost use Rattle.worker_crew.specs.Spawning.{Started, CameBack};

use crate::hand::Hand;
use rpc_outside::Duty;

/// What has a hand's name.
pub trait Named {
    ghost name: { Self → HandName };
}

impl<D: Duty> Named for Hand<D> {
    ghost name = { name_of };
}

/// Runs hands elsewhere, and gives them back.
pub trait Spawner<H: Named> {
    // How many hands were handed back. It stops at its end, 2^64 - 1.
    ghost refused: { Self → ℕ };

    // The hands that were started and aren't back.
    ghost hands_out: { Self → List HandName };

    /// Starts a hand. Err hands the same hand back, and is counted.
    fn start(&mut self, hand: H) -> Result<(), H>
        ensures { Started H.name (H.name hand) (refused self.old) (refused self.new)
            (hands_out self.old) (hands_out self.new) result };

    /// Gives one of the hands back that are out, and may wait for it. None comes exactly where no
    /// hand is out.
    fn finish(&mut self) -> Option<H>
        ensures { CameBack H.name (refused self.old) (refused self.new)
            (hands_out self.old) (hands_out self.new) result };
}

/// Starts no hand: it hands every hand back.
#[derive(Drop)]
pub struct SerialSpawner {
    refused: u64,
}

impl SerialSpawner {
    pub fn new() -> SerialSpawner
        ensures { result.refused ≡ 0 }
    {
        SerialSpawner { refused: 0 }
    }

    /// How many hands were handed back.
    pub fn refused(&self) -> u64
        ensures { result ≡ self.now.refused }
    {
        self.refused
    }
}

impl<D: Duty> Spawner<Hand<D>> for SerialSpawner {
    ghost refused = { λ s. s.refused };

    ghost hands_out = { λ _. [] };

    fn start(&mut self, hand: Hand<D>) -> Result<(), Hand<D>>
        ensures { Started name_of (name_of hand) self.old.refused self.new.refused [] [] result }
    {
        self.refused = self.refused.saturating_add(1);
        Err(hand)
    }

    fn finish(&mut self) -> Option<Hand<D>>
        ensures { CameBack name_of self.old.refused self.new.refused [] [] result }
    {
        None
    }
}
