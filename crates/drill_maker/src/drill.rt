//! The script of a drill.
ghost use Rattle.std.specs.Prelude.{◌≡◌, ◌≢◌, ◌<◌, ◌≤◌, ◌+◌, ◌*◌, ◌%◌, ◌++◌, [], ◌∷◌, All, length};
ghost use Rattle.std.specs.Prelude.{IfOk, OnOk};
ghost use Rattle.drill_maker.specs.Draft.{KeepsSessions};
ghost use Rattle.drill_maker.specs.Drill.{drill_of, pairs, rest_after, rounds};
ghost use Rattle.memory_count.specs.Faults.{HasCause};

use crate::draft::Draft;
use crate::drawing::{add_call, add_noises};
use memory_count::{Memory, NoMemory};
use rand_core::SeedableRng;
use rand_pcg::Pcg32;
use rpc_base::NodeId;
use script_grammar::{Command, MOST_LINES, Script};

/// No drill has more calls.
pub const MOST_CALLS: u32 = 10_000;
/// So many commands of noise follow each call.
const NOISES: u32 = 6;
/// So many calls are made from one rest to the next.
const CALLS_TO_A_REST: u32 = 16;
/// A rest has so many timeouts.
const TIMEOUTS: u32 = 6;
/// The most rounds of each settle.
const ROUNDS: u32 = 400;
/// The timeout of a node in microseconds.
const TIMEOUT: u32 = 5000;

/// Adds a session from node `a` to node `b`.
fn add_pair(
    memory: &mut Memory,
    draft: &mut Draft,
    a: u8,
    b: u8,
    credits: u16,
) -> Result<(), NoMemory>
    requires room { length draft.old + 2 ≤ MOST_LINES }
    requires nodes { (a < b) × (b < 3) }
    requires credits { (1 ≤ credits) × (credits ≤ 256) }
    ensures added { OnOk result (draft.new ≡ draft.old ++ Command.Pair a b credits ∷ []) }
    ensures cause { HasCause memory.old memory.new result }
{
    let pair = Command::Pair {
        a: NodeId(a),
        b: NodeId(b),
        credits,
    };
    draft.add(memory, pair)
}

/// Adds the three sessions.
fn add_pairs(memory: &mut Memory, draft: &mut Draft) -> Result<(), NoMemory>
    requires { length draft.old + 4 ≤ MOST_LINES }
    ensures added { OnOk result (draft.new ≡ draft.old ++ pairs) }
    ensures cause { HasCause memory.old memory.new result }
{
    add_pair(memory, draft, 0, 1, 8)?;
    add_pair(memory, draft, 0, 2, 3)?;
    add_pair(memory, draft, 1, 2, 5)
}

/// Adds so many rounds with a timeout each.
fn add_rounds(memory: &mut Memory, draft: &mut Draft, count: u32) -> Result<(), NoMemory>
    requires { length draft.old + 2 * count + 1 ≤ MOST_LINES }
    ensures added { OnOk result (draft.new ≡ draft.old ++ rounds count) }
    ensures length { OnOk result (length draft.new ≡ length draft.old + 2 * count) }
    ensures cause { HasCause memory.old memory.new result }
{
    for _i in 0..count {
        draft.add(memory, Command::Settle { rounds: ROUNDS })?;
        draft.add(memory, Command::Tick { by: TIMEOUT })?;
    }
    Ok(())
}

/// Adds the rest that follows a call, if one does.
#[tactic(auto, unfolding(crate::specs::Drill::rest_after))]
fn add_rest_after(
    memory: &mut Memory,
    draft: &mut Draft,
    calls: u32,
    call: u32,
) -> Result<(), NoMemory>
    requires { length draft.old + 14 ≤ MOST_LINES }
    ensures added { OnOk result (draft.new ≡ draft.old ++ rest_after calls call) }
    ensures length { OnOk result (length draft.new ≤ length draft.old + 13) }
    ensures none { OnOk result (call % 16 ≢ 0 → call ≢ calls
        → length draft.new ≡ length draft.old) }
    ensures cause { HasCause memory.old memory.new result }
{
    if call % CALLS_TO_A_REST == 0 || call == calls {
        add_rounds(memory, draft, TIMEOUTS)?;
        draft.add(memory, Command::Settle { rounds: ROUNDS })?;
    }
    Ok(())
}

/// The script of a drill: so many calls among three nodes, drawn from a generator that `seed`
/// seeds, with what the network does to them.
pub fn drill_script(memory: &mut Memory, seed: u64, calls: u32) -> Result<Script, NoMemory>
    requires some { 1 ≤ calls }
    requires most { calls ≤ MOST_CALLS }
    ensures script { IfOk result (λ script. script ≡ drill_of seed calls) }
    ensures keeps { IfOk result (λ script. All (λ line. KeepsSessions line.command) script) }
    ensures cause { HasCause memory.old memory.new result }
{
    let mut rng = Pcg32::seed_from_u64(seed);
    let mut draft = Draft::new(memory)?;
    add_pairs(memory, &mut draft)?;
    for call in 0..calls {
        add_call(memory, &mut rng, &mut draft)?;
        add_noises(memory, &mut rng, &mut draft, NOISES)?;
        add_rest_after(memory, &mut draft, calls, call + 1)?;
    }
    Ok(draft.into_script())
}
