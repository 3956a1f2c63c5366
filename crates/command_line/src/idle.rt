//! What a run does where nothing comes, among the words.
ghost use Rattle.std.specs.Prelude.{◌≡◌};
ghost use Rattle.clap.specs.Words.{found_of, rows_of};
ghost use Rattle.command_line.specs.Numbers.{idle_at};

use crate::task::Idle;
use crate::text::text_at;
use clap::ArgMatches;

/// What the words of a run say of it: `--spin`, or nothing.
pub fn idle_of(matches: &ArgMatches<'_>) -> Idle
    ensures { result ≡ idle_at (rows_of (found_of matches.now)) }
{
    match text_at(matches, "spin") {
        Some("true") => Idle::Spin,
        Some(_) | None => Idle::Sleep,
    }
}
