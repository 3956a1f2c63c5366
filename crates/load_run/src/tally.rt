//! How many calls ended in which way.
ghost use Rattle.std.specs.Prelude.{◌≡◌, ◌≢◌};
ghost use Rattle.load_run.specs.Tallies.{tally_at};
ghost use Rattle.load_run.specs.declared.tally.Ending.{Ending};
ghost use Rattle.memory_count.specs.Faults.{one_more};

/// How a call of a load ended.
#[derive(Clone, Copy)]
pub enum Ending {
    /// Well, with a right answer.
    Right,
    /// Its answer was larger than its room.
    Small,
    /// It lost its peer.
    Lost,
    /// Well, with a wrong answer.
    Wrong,
}

/// How many calls ended so. Each count stops at 2^64 - 1.
#[derive(Clone, Copy)]
pub struct Tally {
    pub ok: u64,
    pub small: u64,
    pub lost: u64,
    pub wrong: u64,
}

impl Tally {
    /// No call is over.
    pub fn new() -> Tally
        ensures { result ≡ record { ok = 0; small = 0; lost = 0; wrong = 0 } }
    {
        Tally {
            ok: 0,
            small: 0,
            lost: 0,
            wrong: 0,
        }
    }

    /// One more call ended so.
    pub fn add(&mut self, ending: Ending)
        ensures own { tally_at ending self.new ≡ one_more (tally_at ending self.old) }
        ensures others { (e : Ending) → e ≢ ending → tally_at e self.new ≡ tally_at e self.old }
    {
        match ending {
            Ending::Right => self.ok = self.ok.saturating_add(1),
            Ending::Small => self.small = self.small.saturating_add(1),
            Ending::Lost => self.lost = self.lost.saturating_add(1),
            Ending::Wrong => self.wrong = self.wrong.saturating_add(1),
        }
    }
}
