//! The word of a place: twice its generation, plus 1 while its buffer is out.
ghost use Rattle.std.specs.Prelude.{MatchBool};
ghost use Rattle.shared_pool.specs.Words.{MayBeLent, MayNotBeLent};

/// A place is lent less often.
pub const MOST_LOANS: u64 = 1 << 62;

/// A pool has no more places.
pub const MOST_PLACES: u32 = 4_096;

/// Whether the word shows a buffer at home that may be lent once more.
pub fn may_be_lent(word: u64) -> bool
    ensures { MatchBool result (MayBeLent word) (MayNotBeLent word) }
{
    word % 2 == 0 && word < 2 * MOST_LOANS
}
