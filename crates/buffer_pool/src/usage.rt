//! What a place of the pool is used for.
ghost use Rattle.std.specs.Prelude.{◌≡◌};
ghost use Rattle.buffer_pool.specs.Uses.{is_empty, refs_in};

/// What a place is used for: `put` fills an empty one, `take` and `lend` empty or lend a full one,
/// `restore` and `forget` fill or empty a lent one.
#[derive(Clone, Copy, Debug, PartialEq, Eq)]
pub enum Use {
    /// No buffer is here, and none is to come back.
    Empty,
    /// A buffer is here, with a count of the references to it.
    Full { refs: u32 },
    /// The buffer was lent out of the pool, and its place is kept for it.
    Lent,
}

impl Use {
    /// Whether the place is empty.
    pub fn is_empty(&self) -> bool
        ensures { result ≡ is_empty self.now }
    {
        match self {
            Use::Empty => true,
            Use::Full { refs: _ } | Use::Lent => false,
        }
    }

    /// How many references there are: 0 where there is no buffer.
    pub fn refs(&self) -> u32
        ensures { result ≡ refs_in self.now }
    {
        match self {
            Use::Full { refs } => *refs,
            Use::Empty | Use::Lent => 0,
        }
    }
}
