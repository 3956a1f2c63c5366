//! "The timer rule" of docs/PROTOCOL.md, over the lists of a node.
ghost use Rattle.std.specs.Prelude.{◌≡◌, false, if◌then◌else◌, nat_lt};
ghost use Rattle.rpc_laws.specs.GoBackN.{has_timed_out, row_of};
ghost use Rattle.rpc_laws.specs.declared.rows.TimerRow.TheVariants.{Breaks, RollsBack};

use node_tables::has_queued;
use rpc_base::{Listed, Owner, SessionNo};
use rpc_laws::{Progress, Queued, TimerRow};

/// How often a call is rolled back without a reply before its session breaks.
const MOST_ROLLS: u64 = 8;

// Whether a call times out unless its packet `got` waits in the queue.
fn is_late(clock: u64, timeout: u64, progress: &Progress) -> bool
    ensures { result ≡ has_timed_out clock timeout false progress.now.got progress.now.posted
        progress.now.mark }
{
    progress.got < progress.posted && timeout <= clock.saturating_sub(progress.mark)
}

// What becomes of a call that timed out.
fn late_row(rolls: u64) -> TimerRow
    ensures { result ≡ (if nat_lt rolls 8 then RollsBack else Breaks) }
{
    if rolls < MOST_ROLLS {
        TimerRow::RollsBack
    } else {
        TimerRow::Breaks
    }
}

/// What the timer rule says at `clock` of an active call of a session; the clock and the timeout
/// are in microseconds. The queue, which may be long, is looked at last.
pub fn row_of(
    clock: u64,
    timeout: u64,
    session: SessionNo,
    queued: &Listed<Queued>,
    progress: &Progress,
) -> TimerRow
    ensures { result ≡ row_of clock timeout session queued.now progress.now }
{
    if !is_late(clock, timeout, progress) {
        return TimerRow::Waits;
    }
    let owner = Owner::Ask {
        session,
        request: progress.request,
    };
    if has_queued(queued, owner, progress.got) {
        return TimerRow::Waits;
    }
    late_row(progress.rolls)
}
