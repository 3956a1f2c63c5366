//! What a count tells.
ghost use Rattle.std.specs.Prelude.{◌≡◌};
ghost use Rattle.count_line.specs.Line.{word_text};

/// What a count tells. `Turns`, `Calls`, `Lawful` and `Unlawful` open a line.
#[derive(Clone, Copy, Debug, PartialEq, Eq)]
pub enum Word {
    /// Turns that were made.
    Turns,
    /// Calls that were to be asked.
    Calls,
    /// Handlers that ran.
    Ran,
    /// Jobs that were given to workers.
    Given,
    /// Packets that were dropped.
    Dropped,
    /// Datagrams that found no room.
    Overflowed,
    /// Jobs that were answered with another server's answers.
    Relayed,
    /// Jobs that were asked of another server, and answered here.
    Here,
    /// Calls that ended well, with a right answer.
    Ok,
    /// Calls whose answer was larger than their room.
    Small,
    /// Calls that lost their peer.
    Lost,
    /// Calls that ended well, with a wrong answer.
    Wrong,
    /// Calls that were not asked.
    Unasked,
    /// Facts of a lawful report.
    Lawful,
    /// The line at which a report fails, counted from 1.
    Unlawful,
}

impl Word {
    /// How it is written before its count.
    pub fn text(&self) -> &'static str
        ensures { result.now ≡ word_text self.now }
    {
        match self {
            Word::Turns => "turns ",
            Word::Calls => "calls ",
            Word::Ran => " ran ",
            Word::Given => " given ",
            Word::Dropped => " dropped ",
            Word::Overflowed => " overflowed ",
            Word::Relayed => " relayed ",
            Word::Here => " here ",
            Word::Ok => " ok ",
            Word::Small => " small ",
            Word::Lost => " lost ",
            Word::Wrong => " wrong ",
            Word::Unasked => " unasked ",
            Word::Lawful => "lawful ",
            Word::Unlawful => "unlawful ",
        }
    }
}
