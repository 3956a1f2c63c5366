//! What names a loan.
ghost use Rattle.std.specs.Prelude.{◌≡◌, ◌<◌};

use crate::word::MOST_LOANS;
use std::marker::Model;

/// A buffer that is out: its place, and its generation, which counts the loans of the place from
/// 0. It is spent by giving the buffer back.
#[derive(Debug)]
pub struct Loan {
    place: u32,
    generation: u64,
}

impl Model for Loan {
    ghost use Rattle.std.specs.Prelude.{◌<◌};
    ghost use Rattle.shared_pool.specs.Loans.{LoanNo, loan_no};
    ghost use Rattle.shared_pool.specs.declared.word.TheConstants.{MOST_LOANS};

    ghost Value = { LoanNo };

    ghost view = { λ l. loan_no l.place l.generation };

    ghost invariant = { λ l. l.generation < MOST_LOANS };

    ghost inverse = { λ l. record { place = l.place; generation = l.generation } };
}

impl Loan {
    ghost use Rattle.shared_pool.specs.Loans.{loan_no};

    /// Names a loan.
    pub(crate) fn of(place: u32, generation: u64) -> Loan
        requires { generation < MOST_LOANS }
        ensures { result ≡ loan_no place generation }
    {
        Loan { place, generation }
    }

    /// Lets the name of a loan go.
    pub(crate) fn spend(self) -> (u32, u64)
        ensures place { result.0 ≡ self.place }
        ensures generation { result.1 ≡ self.generation }
        ensures below { result.1 < MOST_LOANS }
    {
        let Loan { place, generation } = self;
        (place, generation)
    }

    /// The place whose buffer is out.
    pub fn place(&self) -> u32
        ensures { result ≡ self.now.place }
    {
        self.place
    }

    /// How many loans of the place came before.
    pub fn generation(&self) -> u64
        ensures value { result ≡ self.now.generation }
        ensures below { result < MOST_LOANS }
    {
        self.generation
    }
}
