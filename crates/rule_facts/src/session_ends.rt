//! Server sessions that end, and which facts tell it.
ghost use Rattle.std.specs.Prelude.{◌≡◌, ◌≤◌, IfOk, IfSome, Some, length, [], ◌∷◌};
ghost use Rattle.memory_count.specs.Faults.{HasCause};
ghost use Rattle.std.specs.List.{find};
ghost use Rattle.rpc_base.specs.declared.event.Event.TheVariants.{Ended};
ghost use Rattle.rpc_laws.specs.Facts.{plain};
ghost use Rattle.rpc_laws.specs.ControlTable.{session_end, session_flushes};
ghost use Rattle.rpc_laws.specs.Requests.{in_slot_of};
ghost use Rattle.rpc_laws.specs.ServerTable.{flushes};
ghost use Rattle.rule_facts.specs.Fronts.{Fronts};

use crate::flushing::flushed;
use crate::says::says_ended;
use memory_count::{Memory, NoMemory};
use node_tables::place_in_slot;
use rpc_base::{Fact, Listed, NodeId, Owner, RequestNo};
use rpc_laws::{Queued, Server};

/// The slots of a session.
const SLOTS: u8 = 8;

/// How many of the facts take out the queued replies to the newest request of the slot of this one.
/// `None` comes exactly where the facts don't begin with these.
pub fn slot_flushed(
    memory: &mut Memory,
    me: NodeId,
    queued: &Listed<Queued>,
    server: &Server,
    request: RequestNo,
    facts: &[Fact],
) -> Result<Option<usize>, NoMemory>
    ensures fronts { IfOk result (Fronts (flushes me queued.now server.now.way.number
        (find (in_slot_of request) server.now.slots)) facts.now) }
    ensures cause { HasCause memory.old memory.new result }
{
    let Some(place) = place_in_slot(&server.slots, request) else {
        return Ok(Some(0));
    };
    let owner = Owner::Reply {
        session: server.way.number,
        request: server.slots.at(place).number,
    };
    let count = flushed(memory, me, queued, &owner, facts)?;
    Ok(count)
}

// How many of the facts take out the queued replies of the slots of a session, in their order.
fn slots_flushed(
    memory: &mut Memory,
    me: NodeId,
    queued: &Listed<Queued>,
    server: &Server,
    facts: &[Fact],
) -> Result<Option<usize>, NoMemory>
    ensures fronts { IfOk result (Fronts (session_flushes me queued.now server.now) facts.now) }
    ensures within { IfOk result (λ o. IfSome o (λ n. n ≤ length facts.now)) }
    ensures cause { HasCause memory.old memory.new result }
{
    let mut count = 0;
    for slot in 0..SLOTS {
        let first = RequestNo::of(slot, 0);
        let rest = &facts[count..];
        let Some(more) = slot_flushed(memory, me, queued, server, first, rest)? else {
            return Ok(None);
        };
        count += more;
    }
    Ok(Some(count))
}

// How many of the facts say that a session is over.
fn over(me: NodeId, server: &Server, facts: &[Fact]) -> Option<usize>
    ensures { Fronts (plain me (Ended server.now.way.number) ∷ []) facts.now result }
{
    if facts.is_empty() || !says_ended(&facts[0], me, server.way.number) {
        return None;
    }
    Some(1)
}

/// How many of the facts end a server session: its queued replies are taken out, and it is over.
/// `None` comes exactly where the facts don't begin with these.
pub fn session_ended(
    memory: &mut Memory,
    me: NodeId,
    queued: &Listed<Queued>,
    server: &Server,
    facts: &[Fact],
) -> Result<Option<usize>, NoMemory>
    ensures fronts { IfOk result (Fronts (session_end me queued.now (Some server.now)) facts.now) }
    ensures cause { HasCause memory.old memory.new result }
{
    let Some(count) = slots_flushed(memory, me, queued, server, facts)? else {
        return Ok(None);
    };
    let Some(last) = over(me, server, &facts[count..]) else {
        return Ok(None);
    };
    Ok(Some(count + last))
}
