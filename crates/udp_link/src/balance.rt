//! Whether a datagram is likely to be there behind the one that came, so that the system needn't be
//! asked.
ghost use Rattle.std.specs.Prelude.{◌≡◌, ◌↔◌, ◌≤◌, ◌+◌, IsTrue};

/// No more packets are taken to be owed, whatever was sent.
const MOST_OWED: u32 = 1_024;

/// So often behind a datagram it is told that none is there without asking the system: at the end
/// of the turn in which it came, and at the begin of the next, in which its answer is acted on.
const SPARES: u32 = 2;

/// How many packets were sent that weren't answered. A packet is answered by one as a rule: where
/// as many came as were sent nothing more is likely to be there. Who is told so twice and asks again
/// gets the system's answer, and where that finds one more are taken to be owed from then on.
#[derive(Clone, Copy)]
pub struct Balance {
    owed: u32,
    /// How often it may still be told that none is there without asking.
    spares: u32,
    /// Whether it was told so, and the system wasn't asked since.
    is_guessed: bool,
    /// How many more were taken to be owed when that was wrong last.
    more: u32,
}

impl Balance {
    /// Nothing was sent, and nothing came.
    pub fn new() -> Balance {
        Balance {
            owed: 0,
            spares: 0,
            is_guessed: false,
            more: 0,
        }
    }

    // So many more packets are owed.
    fn owe(&mut self, count: u32)
        ensures spares { self.new.spares ≡ self.old.spares }
    {
        self.owed = self.owed.saturating_add(count).min(MOST_OWED);
    }

    /// A packet was sent.
    pub fn note_sent(&mut self)
        ensures spares { self.new.spares ≡ self.old.spares }
    {
        self.owe(1);
    }

    /// A packet was given out.
    pub fn note_given(&mut self)
        ensures less { self.new.owed ≤ self.old.owed }
        ensures spares { self.new.spares ≡ self.old.spares }
    {
        self.owed = self.owed.saturating_sub(1);
    }

    /// Whether none is taken to be there. It isn't a third time before another datagram came.
    pub fn is_even(&mut self) -> bool
        ensures even { IsTrue result ↔ ((1 ≤ self.old.spares) × (self.old.owed ≡ 0)) }
        ensures fewer { IsTrue result → self.new.spares + 1 ≡ self.old.spares }
    {
        if self.spares == 0 || self.owed > 0 {
            return false;
        }
        self.spares -= 1;
        self.is_guessed = true;
        true
    }

    /// A datagram came. Where none was taken to be there just before, more are owed than was
    /// thought.
    pub fn note_one(&mut self)
        ensures { self.new.spares ≡ SPARES }
    {
        self.spares = SPARES;
        if self.is_guessed {
            self.is_guessed = false;
            self.more = self.more.saturating_mul(2).max(1).min(MOST_OWED);
            self.owe(self.more);
        }
    }

    /// The system has none.
    pub fn note_none(&mut self)
        ensures owed { self.new.owed ≡ self.old.owed }
        ensures none { self.new.spares ≡ 0 }
    {
        self.spares = 0;
        self.is_guessed = false;
        self.more = 0;
    }

    /// The link waited in vain: what is owed may have been lost.
    pub fn note_wait(&mut self)
        ensures less { self.new.owed ≤ self.old.owed }
        ensures none { self.new.spares ≡ 0 }
    {
        self.note_none();
        self.owed /= 2;
    }
}
