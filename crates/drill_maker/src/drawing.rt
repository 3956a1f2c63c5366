//! What a drill draws for each of its calls.
ghost use Rattle.std.specs.Prelude.{◌≡◌, ◌<◌, ◌≤◌, ◌+◌, ◌++◌, [], ◌∷◌, length, IfOk, OnOk};
ghost use Rattle.drill_maker.specs.Draft.{IsDrilled};
ghost use Rattle.drill_maker.specs.Draws.{draw};
ghost use Rattle.drill_maker.specs.Drill.{drawn_ask, drawn_call, drawn_noise, drawn_noises};
ghost use Rattle.drill_maker.specs.Drill.{node_of, session_of, type_of};
ghost use Rattle.memory_count.specs.Faults.{HasCause};
ghost use Rattle.script_grammar.specs.Conditions.{IsAskInRange};

use crate::draft::Draft;
use memory_count::{Memory, NoMemory};
use rand_core::utils::NextWord;
use rand_pcg::Pcg32;
use rpc_base::{NodeId, Octets, SessionNo};
use script_grammar::{AskBytes, Command, MOST_LINES};

/// The type of a tally.
const TALLY: u8 = 3;
/// The type of a fill.
const FILL: u8 = 4;
/// The background type that reverses.
const REVERSE_LATER: u8 = 130;
/// The room of each answer in bytes.
const ROOM: u32 = 8192;

/// The next word of the generator, modulo `m`.
#[tactic(auto, unfolding(crate::specs::Draws::draw))]
fn draw(rng: &mut Pcg32, m: u32) -> u32
    requires { 0 < m }
    ensures value { result ≡ (draw m rng.old).0 }
    ensures next { rng.new ≡ (draw m rng.old).1 }
    ensures below { result < m }
{
    rng.next_word() % m
}

/// The node of a call.
fn node_of(x: u32) -> NodeId
    ensures node { result ≡ node_of x }
    ensures declared { result < 3 }
{
    NodeId(if x == 2 { 1 } else { 0 })
}

/// The session of a call at its node.
fn session_of(x: u32) -> SessionNo
    ensures { result ≡ session_of x }
{
    SessionNo(if x == 1 { 1 } else { 0 })
}

/// The type of a call.
fn type_of(y: u32) -> u8
    requires { y < 5 }
    ensures { result ≡ type_of y }
{
    if y == 4 { REVERSE_LATER } else { y as u8 + 1 }
}

/// These bytes, written out.
fn given(memory: &mut Memory, bytes: &[u8]) -> Result<AskBytes, NoMemory>
    ensures given { IfOk result (λ ask. ask ≡ AskBytes.Given bytes.now) }
    ensures cause { HasCause memory.old memory.new result }
{
    let copy = Octets::copy(memory.alloc(), bytes);
    Ok(AskBytes::Given(memory.of(copy)?))
}

/// The bytes of a call of this type.
#[tactic(auto, unfolding(crate::specs::Drill::drawn_ask))]
fn draw_ask(memory: &mut Memory, rng: &mut Pcg32, req_type: u8) -> Result<AskBytes, NoMemory>
    ensures value { IfOk result (λ ask. ask ≡ (drawn_ask req_type rng.old).0) }
    ensures next { OnOk result (rng.new ≡ (drawn_ask req_type rng.old).1) }
    ensures range { IfOk result IsAskInRange }
    ensures cause { HasCause memory.old memory.new result }
{
    match req_type {
        TALLY => {
            let number = u64::from(draw(rng, 1000));
            given(memory, &number.to_be_bytes())
        }
        FILL => {
            let number = draw(rng, 5000);
            given(memory, &number.to_be_bytes())
        }
        _ => Ok(AskBytes::Count(draw(rng, 4096))),
    }
}

/// Adds a call, and a poll of its node.
#[tactic(auto, unfolding(crate::specs::Drill::drawn_call))]
pub fn add_call(memory: &mut Memory, rng: &mut Pcg32, draft: &mut Draft) -> Result<(), NoMemory>
    requires { length draft.old + 3 ≤ MOST_LINES }
    ensures added { OnOk result (draft.new ≡ draft.old ++ (drawn_call rng.old).0) }
    ensures next { OnOk result (rng.new ≡ (drawn_call rng.old).1) }
    ensures length { OnOk result (length draft.new ≡ length draft.old + 2) }
    ensures cause { HasCause memory.old memory.new result }
{
    let x = draw(rng, 3);
    let y = draw(rng, 5);
    let req_type = type_of(y);
    let ask = draw_ask(memory, rng, req_type)?;
    let node = node_of(x);
    let session = session_of(x);
    let call = Command::Call {
        node,
        session,
        req_type,
        ask,
        room: ROOM,
    };
    draft.add(memory, call)?;
    draft.add(memory, Command::Poll { node })
}

/// What the network, a node or the clock does meanwhile.
#[tactic(auto, unfolding(crate::specs::Drill::drawn_noise))]
fn draw_noise(rng: &mut Pcg32) -> Command
    ensures value { result ≡ (drawn_noise rng.old).0 }
    ensures next { rng.new ≡ (drawn_noise rng.old).1 }
    ensures drilled { IsDrilled result }
{
    match draw(rng, 8) {
        0 => Command::Lose { copy: draw(rng, 4) },
        1 => Command::Repeat { copy: draw(rng, 4) },
        2..=4 => Command::Arrive { copy: draw(rng, 4) },
        5 => Command::Poll {
            node: NodeId(draw(rng, 3) as u8),
        },
        6 => Command::Work {
            node: NodeId(draw(rng, 3) as u8),
            job: 0,
        },
        _ => Command::Tick { by: draw(rng, 400) },
    }
}

/// Adds so many commands of noise.
pub fn add_noises(
    memory: &mut Memory,
    rng: &mut Pcg32,
    draft: &mut Draft,
    count: u32,
) -> Result<(), NoMemory>
    requires { length draft.old + count + 1 ≤ MOST_LINES }
    ensures added { OnOk result (draft.new ≡ draft.old ++ (drawn_noises count rng.old).0) }
    ensures next { OnOk result (rng.new ≡ (drawn_noises count rng.old).1) }
    ensures length { OnOk result (length draft.new ≡ length draft.old + count) }
    ensures cause { HasCause memory.old memory.new result }
{
    for _i in 0..count {
        let noise = draw_noise(rng);
        draft.add(memory, noise)?;
    }
    Ok(())
}
