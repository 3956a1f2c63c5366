//! What a run does by its words.
ghost use Rattle.std.specs.Prelude.{◌≡◌};
ghost use Rattle.run_status.specs.Words.{sleeps as may_sleep};

use command_line::Idle;

/// Whether a run may sleep where nothing comes.
pub fn sleeps(idle: Idle) -> bool
    ensures { result ≡ may_sleep idle }
{
    match idle {
        Idle::Sleep => true,
        Idle::Spin => false,
    }
}
