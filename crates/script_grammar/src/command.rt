//! Commands, from the words of their lines.
ghost use Rattle.std.specs.Prelude.{◌≡◌, ◌≤◌, Ok, Err, IfOk, IfErr};
ghost use Rattle.memory_count.specs.Faults.{HasRisenBy};
ghost use Rattle.script_grammar.specs.Commands.{ring_in, ends_in, session_in, rate_in};
ghost use Rattle.script_grammar.specs.Commands.{call_parts_in, only_node_in, only_number_in};
ghost use Rattle.script_grammar.specs.Commands.{job_in, plain_in, call_in, command_in};
ghost use Rattle.script_grammar.specs.Conditions.{IsInRange};
ghost use Rattle.script_grammar.specs.Told.{IsTold, lacks};
ghost use Rattle.script_grammar.specs.Words.{words_of};

use crate::ask::ask;
use crate::bad::BadWhy;
use crate::line::Command;
use crate::numbers::{node, number};
use crate::refusal::Refusal;
use crate::text::{Words, is_word};
use crate::verb::{Verb, verb_of};
use memory_count::Memory;
use rpc_base::{NodeId, SessionNo};

/// A ring has so many places at least.
pub const LEAST_RING: u32 = rpc_base::LEAST_RING;
/// A ring has no more places.
pub const MOST_RING: u32 = rpc_base::MOST_RING;
/// A session has so many credits at least.
pub const LEAST_CREDITS: u32 = 1;
/// A session has no more credits.
pub const MOST_CREDITS: u32 = rpc_base::MOST_CREDITS as u32;
/// No number of a session is higher.
pub const LAST_SESSION: u32 = rpc_base::SESSION_NUMBERS as u32 - 1;
/// No request type is higher.
pub const LAST_TYPE: u32 = 255;
/// No response buffer has more bytes.
pub const MOST_ROOM: u32 = rpc_base::MOST_MESSAGE_BYTES;
/// The clock goes on by no more microseconds at once.
pub const MOST_TICK: u32 = 1_000_000_000;
/// A settle has so many rounds at least.
pub const LEAST_ROUNDS: u32 = 1;
/// No settle has more rounds.
pub const MOST_ROUNDS: u32 = 1_000_000;

/// `ring=R`.
#[tactic(auto, unfolding(crate::specs::Commands::ring_in))]
fn ring(words: Words) -> Result<u32, BadWhy>
    ensures value { result ≡ ring_in words.entry }
    ensures range { IfOk result (λ ring. (LEAST_RING ≤ ring) × (ring ≤ MOST_RING)) }
{
    let ring = words.last(b"ring=")?;
    number(ring, LEAST_RING, MOST_RING)
}

/// `A B credits=C`.
#[tactic(auto, unfolding(crate::specs::Commands::ends_in))]
fn ends(words: Words) -> Result<(NodeId, NodeId, u16), BadWhy>
    ensures value { result ≡ ends_in words.entry }
    ensures range { IfOk result (λ p. (LEAST_CREDITS ≤ p.2) × (p.2 ≤ MOST_CREDITS)) }
{
    let (a, words) = words.next()?;
    let (b, words) = words.next()?;
    let credits = words.last(b"credits=")?;
    let a = node(a)?;
    let b = node(b)?;
    let credits = number(credits, LEAST_CREDITS, MOST_CREDITS)?;
    Ok((a, b, credits as u16))
}

/// `A S`.
#[tactic(auto, unfolding(crate::specs::Commands::session_in))]
fn session(words: Words) -> Result<(NodeId, SessionNo), BadWhy>
    ensures value { result ≡ session_in words.entry }
    ensures range { IfOk result (λ p. p.1 ≤ 65534) }
{
    let (a, words) = words.next()?;
    let session = words.last(b"")?;
    let a = node(a)?;
    let session = number(session, 0, LAST_SESSION)?;
    Ok((a, SessionNo(session as u16)))
}

/// `A S B`.
#[tactic(auto, unfolding(crate::specs::Commands::rate_in))]
fn rate(words: Words) -> Result<(NodeId, SessionNo, u32), BadWhy>
    ensures value { result ≡ rate_in words.entry }
    ensures range { IfOk result (λ p. p.1 ≤ 65534) }
{
    let (a, words) = words.next()?;
    let (session, words) = words.next()?;
    let rate = words.last(b"")?;
    let a = node(a)?;
    let session = number(session, 0, LAST_SESSION)?;
    let rate = number(rate, 0, u32::MAX)?;
    Ok((a, SessionNo(session as u16), rate))
}

/// `A S Y ASK room=R`: node, session, type, ASK as it stands, and room.
#[tactic(auto, unfolding(crate::specs::Commands::call_parts_in))]
fn call_parts(words: Words) -> Result<(NodeId, SessionNo, u8, &[u8], u32), BadWhy>
    ensures ok { IfOk result (λ p. call_parts_in words.entry ≡ Ok (p.0, p.1, p.2, p.3.now, p.4)) }
    ensures range { IfOk result (λ p. (p.1 ≤ LAST_SESSION) × (p.4 ≤ MOST_ROOM)) }
    ensures err { IfErr result (λ why. call_parts_in words.entry ≡ Err why) }
{
    let (a, words) = words.next()?;
    let (session, words) = words.next()?;
    let (req_type, words) = words.next()?;
    let (ask, words) = words.next()?;
    let room = words.last(b"room=")?;
    let a = node(a)?;
    let session = number(session, 0, LAST_SESSION)?;
    let req_type = number(req_type, 0, LAST_TYPE)?;
    let room = number(room, 0, MOST_ROOM)?;
    Ok((a, SessionNo(session as u16), req_type as u8, ask, room))
}

/// `A`.
#[tactic(auto, unfolding(crate::specs::Commands::only_node_in))]
fn only_node(words: Words) -> Result<NodeId, BadWhy>
    ensures { result ≡ only_node_in words.entry }
{
    let a = words.last(b"")?;
    node(a)
}

/// One number, from `low` to `high`.
#[tactic(auto, unfolding(crate::specs::Commands::only_number_in))]
fn only_number(words: Words, low: u32, high: u32) -> Result<u32, BadWhy>
    ensures value { result ≡ only_number_in low high words.entry }
    ensures range { IfOk result (λ n. (low ≤ n) × (n ≤ high)) }
{
    let word = words.last(b"")?;
    number(word, low, high)
}

/// `A J`.
#[tactic(auto, unfolding(crate::specs::Commands::job_in))]
fn job(words: Words) -> Result<(NodeId, u32), BadWhy>
    ensures { result ≡ job_in words.entry }
{
    let (a, words) = words.next()?;
    let job = words.last(b"")?;
    let a = node(a)?;
    let job = number(job, 0, u32::MAX)?;
    Ok((a, job))
}

/// What follows the first word of each command but `call`; each arm is a row of the grammar.
#[tactic(auto, unfolding(crate::specs::Commands::plain_in))]
pub fn plain(verb: Verb, words: Words) -> Result<Command, BadWhy>
    ensures value { result ≡ plain_in verb words.entry }
    ensures range { IfOk result IsInRange }
{
    Ok(match verb {
        Verb::Node => Command::Node { ring: ring(words)? },
        Verb::Pair => {
            let (a, b, credits) = ends(words)?;
            Command::Pair { a, b, credits }
        }
        Verb::Connect => {
            let (a, b, credits) = ends(words)?;
            Command::Connect { a, b, credits }
        }
        Verb::Disconnect => {
            let (node, session) = session(words)?;
            Command::Disconnect { node, session }
        }
        Verb::Rate => {
            let (node, session, rate) = rate(words)?;
            Command::Rate {
                node,
                session,
                rate,
            }
        }
        Verb::Poll => Command::Poll {
            node: only_node(words)?,
        },
        Verb::Arrive => Command::Arrive {
            copy: only_number(words, 0, u32::MAX)?,
        },
        Verb::Lose => Command::Lose {
            copy: only_number(words, 0, u32::MAX)?,
        },
        Verb::Repeat => Command::Repeat {
            copy: only_number(words, 0, u32::MAX)?,
        },
        Verb::Tick => Command::Tick {
            by: only_number(words, 0, MOST_TICK)?,
        },
        Verb::Work => {
            let (node, job) = job(words)?;
            Command::Work { node, job }
        }
        Verb::Settle => Command::Settle {
            rounds: only_number(words, LEAST_ROUNDS, MOST_ROUNDS)?,
        },
        Verb::Restart => Command::Restart {
            node: only_node(words)?,
        },
    })
}

/// What follows the word `call`.
#[tactic(auto, unfolding(crate::specs::Commands::call_in))]
fn call(memory: &mut Memory, words: Words) -> Result<Command, Refusal>
    ensures value { IsTold result (call_in words.entry) }
    ensures range { IfOk result IsInRange }
    ensures cause { HasRisenBy (lacks result) memory.old memory.new }
{
    match call_parts(words) {
        Err(why) => Err(Refusal::Why(why)),
        Ok((node, session, req_type, word, room)) => {
            let ask = ask(memory, word)?;
            Ok(Command::Call {
                node,
                session,
                req_type,
                ask,
                room,
            })
        }
    }
}

/// The command of a line.
#[tactic(auto, unfolding(crate::specs::Commands::command_in))]
pub fn command(memory: &mut Memory, line: &[u8]) -> Result<Command, Refusal>
    ensures value { IsTold result (command_in (words_of line.now)) }
    ensures range { IfOk result IsInRange }
    ensures cause { HasRisenBy (lacks result) memory.old memory.new }
{
    let (word, words) = Words::of(line);
    if is_word(word, b"call") {
        return call(memory, words);
    }
    match verb_of(word) {
        Some(verb) => Ok(plain(verb, words)?),
        None => Err(Refusal::Why(BadWhy::Word)),
    }
}
