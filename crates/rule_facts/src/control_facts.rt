//! Which facts a row of the control rule notes.
ghost use Rattle.std.specs.Prelude.{◌≡◌, IfOk, [], ◌∷◌};
ghost use Rattle.memory_count.specs.Faults.{HasCause};
ghost use Rattle.rpc_base.specs.declared.event.Event.TheVariants.{Accepted, ClosedHeard, Connected};
ghost use Rattle.rpc_base.specs.declared.event.Event.TheVariants.{Declined, FailedNoRoom, Starved};
ghost use Rattle.rpc_laws.specs.ControlTable.{control_facts, named_end, session_end};
ghost use Rattle.rpc_laws.specs.Facts.{plain};
ghost use Rattle.rule_facts.specs.Fronts.{Fronts};

use crate::says::{
    says_accepted, says_closed_heard, says_connected, says_declined, says_failed_no_room,
    says_starved,
};
use crate::session_ends::session_ended;
use memory_count::{Memory, NoMemory};
use node_rules::named_end;
use packet_header::ControlHeader;
use rpc_base::{Fact, NodeId, Peer, SessionNo};
use rpc_laws::{ControlRow, Lists};

/// A row that notes nothing.
pub fn none(facts: &[Fact]) -> Option<usize>
    ensures { Fronts [] facts.now result }
{
    Some(0)
}

// A connect request found no room.
fn declined(me: NodeId, peer: Peer, head: &ControlHeader, facts: &[Fact]) -> Option<usize>
    ensures { Fronts (plain me (Declined peer head.now.client head.now.credits) ∷ []) facts.now
        result }
{
    if facts.is_empty() || !says_declined(&facts[0], me, peer, head.client, head.credits) {
        return None;
    }
    Some(1)
}

// It found no memory.
fn starved(me: NodeId, peer: Peer, head: &ControlHeader, facts: &[Fact]) -> Option<usize>
    ensures { Fronts (plain me (Starved peer head.now.client head.now.credits) ∷ []) facts.now
        result }
{
    if facts.is_empty() || !says_starved(&facts[0], me, peer, head.client, head.credits) {
        return None;
    }
    Some(1)
}

// It made this server session.
fn accepted(
    me: NodeId,
    peer: Peer,
    head: &ControlHeader,
    server: SessionNo,
    facts: &[Fact],
) -> Option<usize>
    ensures { Fronts (plain me (Accepted server peer head.now.client head.now.credits
        head.now.from_life) ∷ []) facts.now result }
{
    let client = head.client;
    let credits = head.credits;
    let life = head.from_life;
    if facts.is_empty() || !says_accepted(&facts[0], me, server, peer, client, credits, life) {
        return None;
    }
    Some(1)
}

// The client session is connected with this server session.
fn connected(me: NodeId, head: &ControlHeader, server: SessionNo, facts: &[Fact]) -> Option<usize>
    ensures { Fronts (plain me (Connected head.now.client server head.now.from_life) ∷ [])
        facts.now result }
{
    if facts.is_empty() || !says_connected(&facts[0], me, head.client, server, head.from_life) {
        return None;
    }
    Some(1)
}

// The client session failed: its server has no room.
fn failed(me: NodeId, head: &ControlHeader, facts: &[Fact]) -> Option<usize>
    ensures { Fronts (plain me (FailedNoRoom head.now.client) ∷ []) facts.now result }
{
    if facts.is_empty() || !says_failed_no_room(&facts[0], me, head.client) {
        return None;
    }
    Some(1)
}

// The client session is closed.
fn closed(me: NodeId, head: &ControlHeader, facts: &[Fact]) -> Option<usize>
    ensures { Fronts (plain me (ClosedHeard head.now.client) ∷ []) facts.now result }
{
    if facts.is_empty() || !says_closed_heard(&facts[0], me, head.client) {
        return None;
    }
    Some(1)
}

// The server session that the packet names ends, if it is there.
fn ended(
    memory: &mut Memory,
    lists: &Lists,
    peer: Peer,
    head: &ControlHeader,
    facts: &[Fact],
) -> Result<Option<usize>, NoMemory>
    ensures fronts { IfOk result (Fronts (session_end lists.now.me lists.now.queued
        (named_end peer head.now.client head.now.from_life head.now.server lists.now.servers))
        facts.now) }
    ensures cause { HasCause memory.old memory.new result }
{
    let Some(server) = named_end(&lists.servers, peer, head) else {
        return Ok(Some(0));
    };
    let count = session_ended(memory, lists.me, &lists.queued, server, facts)?;
    Ok(count)
}

/// How many of the facts are those of a row, for a control packet of this peer. `None` comes
/// exactly where the facts don't begin with these.
pub fn control_noted(
    memory: &mut Memory,
    lists: &Lists,
    peer: Peer,
    head: &ControlHeader,
    row: ControlRow,
    facts: &[Fact],
) -> Result<Option<usize>, NoMemory>
    ensures fronts { IfOk result (Fronts (control_facts lists.now peer head.now row) facts.now) }
    ensures cause { HasCause memory.old memory.new result }
{
    let me = lists.me;
    match row {
        ControlRow::Declines => Ok(declined(me, peer, head, facts)),
        ControlRow::Starves => Ok(starved(me, peer, head, facts)),
        ControlRow::Accepts { server } => Ok(accepted(me, peer, head, server, facts)),
        ControlRow::Ends => ended(memory, lists, peer, head, facts),
        ControlRow::Connects { server } => Ok(connected(me, head, server, facts)),
        ControlRow::Fails => Ok(failed(me, head, facts)),
        ControlRow::Closes => Ok(closed(me, head, facts)),
        ControlRow::Ignores => Ok(none(facts)),
        ControlRow::Confirms { .. } => Ok(none(facts)),
        ControlRow::Misses => Ok(none(facts)),
        ControlRow::Disowns => Ok(none(facts)),
    }
}
