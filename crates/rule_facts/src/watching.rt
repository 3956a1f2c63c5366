//! What becomes of a call by the timer rule, and which facts tell it.
ghost use Rattle.std.specs.Prelude.{◌≡◌, ◌∷◌, [], ◌≤◌, ◌↔◌, IfOk, IfSome, IsTrue, Some, flat_map};
ghost use Rattle.memory_count.specs.Faults.{HasCause};
ghost use Rattle.std.specs.Prelude.{length, map, slice_get};
ghost use Rattle.std.specs.List.{list_all};
ghost use Rattle.rpc_base.specs.declared.event.Event.TheVariants.{Broken, DonePeerLost, Rolled};
ghost use Rattle.rpc_laws.specs.Facts.{plain};
ghost use Rattle.rpc_laws.specs.GoBackN.{break_facts, call_facts, client_facts, flushes_of};
ghost use Rattle.rpc_laws.specs.GoBackN.{roll_facts, row_facts};
ghost use Rattle.rule_facts.specs.Fronts.{Fronts};
ghost use Rattle.rule_facts.specs.Watching.{call_waits, client_waits, is_waits};

use crate::control_facts::none;
use crate::flushing::flushed;
use crate::says::{says_broken, says_done_peer_lost, says_rolled};
use memory_count::{Memory, NoMemory};
use node_rules::row_of;
use rpc_base::{CallNo, Fact, Listed, NodeId, Owner, SessionNo};
use rpc_laws::{Call, Calls, Client, Lists, Progress, Queued, TimerRow};

// Whether the first of the facts says that a call was rolled back.
fn rolled(me: NodeId, number: CallNo, progress: &Progress, facts: &[Fact]) -> Option<usize>
    ensures { Fronts (plain me (Rolled number progress.now.posted progress.now.got) ∷ []) facts.now
        result }
{
    if facts.is_empty() || !says_rolled(&facts[0], me, number, progress.posted, progress.got) {
        return None;
    }
    Some(1)
}

// How many of the facts roll a call back: its queued packets are taken out before.
fn rolls(
    memory: &mut Memory,
    lists: &Lists,
    session: SessionNo,
    number: CallNo,
    progress: &Progress,
    facts: &[Fact],
) -> Result<Option<usize>, NoMemory>
    ensures fronts { IfOk result (Fronts (roll_facts lists.now.me session lists.now.queued number
        progress.now) facts.now) }
    ensures cause { HasCause memory.old memory.new result }
{
    let owner = Owner::Ask {
        session,
        request: progress.request,
    };
    let Some(count) = flushed(memory, lists.me, &lists.queued, &owner, facts)? else {
        return Ok(None);
    };
    let Some(last) = rolled(lists.me, number, progress, &facts[count..]) else {
        return Ok(None);
    };
    Ok(Some(count + last))
}

// How many of the facts take out the queued packets of a call, if it is active.
fn call_flushed(
    memory: &mut Memory,
    me: NodeId,
    session: SessionNo,
    queued: &Listed<Queued>,
    call: &Call,
    facts: &[Fact],
) -> Result<Option<usize>, NoMemory>
    ensures fronts { IfOk result (Fronts (flushes_of me session queued.now call.now.progress)
        facts.now) }
    ensures cause { HasCause memory.old memory.new result }
{
    match &call.progress {
        None => Ok(none(facts)),
        Some(progress) => {
            let request = progress.request;
            let owner = Owner::Ask { session, request };
            let count = flushed(memory, me, queued, &owner, facts)?;
            Ok(count)
        }
    }
}

// How many of the facts take out those of all calls of a session, one call after another.
fn calls_flushed(
    memory: &mut Memory,
    me: NodeId,
    session: SessionNo,
    queued: &Listed<Queued>,
    calls: &Calls,
    facts: &[Fact],
) -> Result<Option<usize>, NoMemory>
    ensures fronts { IfOk result (Fronts (flat_map (λ c. flushes_of me session queued.now
        c.progress) calls.now) facts.now) }
    ensures within { IfOk result (λ o. IfSome o (λ n. n ≤ length facts.now)) }
    ensures cause { HasCause memory.old memory.new result }
{
    let end = calls.len();
    let mut count = 0;
    for place in 0..end {
        let call = calls.at(place);
        let rest = &facts[count..];
        let Some(more) = call_flushed(memory, me, session, queued, call, rest)? else {
            return Ok(None);
        };
        count += more;
    }
    Ok(Some(count))
}

// Whether a fact says that a call ended, since its session lost its peer.
fn says_lost(fact: &Fact, me: NodeId, call: &Call) -> bool
    ensures { IsTrue result ↔ (fact.now ≡ plain me (DonePeerLost call.now.what.number)) }
{
    says_done_peer_lost(fact, me, call.what.number)
}

// How many of the facts end the calls of a session, in their order.
fn calls_lost(me: NodeId, calls: &Calls, facts: &[Fact]) -> Option<usize>
    ensures { Fronts (map (λ c. plain me (DonePeerLost c.what.number)) calls.now) facts.now result }
{
    let end = calls.len();
    for place in 0..end {
        let call = calls.at(place);
        if facts.len() <= place {
            return None;
        }
        if !says_lost(&facts[place], me, call) {
            return None;
        }
    }
    Some(end)
}

// How many of the facts say that a session lost its peer, and end its calls.
fn lost(me: NodeId, client: &Client, facts: &[Fact]) -> Option<usize>
    ensures { Fronts (plain me (Broken client.now.way.number)
        ∷ map (λ c. plain me (DonePeerLost c.what.number)) client.now.calls) facts.now result }
{
    if facts.is_empty() || !says_broken(&facts[0], me, client.way.number) {
        return None;
    }
    let Some(count) = calls_lost(me, &client.calls, &facts[1..]) else {
        return None;
    };
    Some(count + 1)
}

// How many of the facts break a session: the queued packets of its calls are taken out before.
fn breaks(
    memory: &mut Memory,
    lists: &Lists,
    client: &Client,
    facts: &[Fact],
) -> Result<Option<usize>, NoMemory>
    ensures fronts { IfOk result (Fronts (break_facts lists.now.me lists.now.queued client.now)
        facts.now) }
    ensures cause { HasCause memory.old memory.new result }
{
    let session = client.way.number;
    let calls = &client.calls;
    let Some(count) = calls_flushed(memory, lists.me, session, &lists.queued, calls, facts)? else {
        return Ok(None);
    };
    let Some(more) = lost(lists.me, client, &facts[count..]) else {
        return Ok(None);
    };
    Ok(Some(count + more))
}

// How many of the facts are those of a row.
fn row_noted(
    memory: &mut Memory,
    lists: &Lists,
    client: &Client,
    number: CallNo,
    progress: &Progress,
    row: TimerRow,
    facts: &[Fact],
) -> Result<Option<usize>, NoMemory>
    ensures fronts { IfOk result (Fronts (row_facts lists.now.me lists.now.queued client.now number
        progress.now row) facts.now) }
    ensures cause { HasCause memory.old memory.new result }
{
    match row {
        TimerRow::Waits => Ok(none(facts)),
        TimerRow::RollsBack => rolls(memory, lists, client.way.number, number, progress, facts),
        TimerRow::Breaks => breaks(memory, lists, client, facts),
    }
}

// How many of the facts a call gives, if it is active.
fn call_watched(
    memory: &mut Memory,
    lists: &Lists,
    clock: u64,
    timeout: u64,
    client: &Client,
    call: &Call,
    facts: &[Fact],
) -> Result<Option<usize>, NoMemory>
    ensures fronts { IfOk result (Fronts (call_facts clock timeout lists.now.me lists.now.queued
        client.now (Some call.now)) facts.now) }
    ensures cause { HasCause memory.old memory.new result }
{
    match &call.progress {
        None => Ok(none(facts)),
        Some(progress) => {
            let row = row_of(clock, timeout, client.way.number, &lists.queued, progress);
            let count = row_noted(
                memory,
                lists,
                client,
                call.what.number,
                progress,
                row,
                facts,
            )?;
            Ok(count)
        }
    }
}

// So many it gives by its number, if it isn't over.
fn client_watched(
    memory: &mut Memory,
    lists: &Lists,
    clock: u64,
    timeout: u64,
    client: &Client,
    number: CallNo,
    facts: &[Fact],
) -> Result<Option<usize>, NoMemory>
    ensures fronts { IfOk result (Fronts (client_facts clock timeout lists.now.me lists.now.queued
        number (Some client.now)) facts.now) }
    ensures cause { HasCause memory.old memory.new result }
{
    let Some(place) = client.calls.place_of(number) else {
        return Ok(Some(0));
    };
    let call = client.calls.at(place);
    let count = call_watched(memory, lists, clock, timeout, client, call, facts)?;
    Ok(count)
}

/// How many of the facts are what becomes at `clock` of the call of this number of client session
/// `i`; the clock and the timeout are in microseconds. `None` comes exactly where the facts don't
/// begin with these.
pub fn watched(
    memory: &mut Memory,
    lists: &Lists,
    clock: u64,
    timeout: u64,
    i: usize,
    number: CallNo,
    facts: &[Fact],
) -> Result<Option<usize>, NoMemory>
    ensures fronts { IfOk result (Fronts (client_facts clock timeout lists.now.me lists.now.queued
        number (slice_get lists.now.clients i)) facts.now) }
    ensures cause { HasCause memory.old memory.new result }
{
    let sessions = lists.clients.len();
    if sessions <= i {
        return Ok(Some(0));
    }
    let client = lists.clients.at(i);
    let count = client_watched(memory, lists, clock, timeout, client, number, facts)?;
    Ok(count)
}

fn is_waits(row: TimerRow) -> bool
    ensures { result ≡ is_waits row }
{
    matches!(row, TimerRow::Waits)
}

// Whether a call of a session gives nothing.
fn call_waits(
    clock: u64,
    timeout: u64,
    session: SessionNo,
    queued: &Listed<Queued>,
    call: &Call,
) -> bool
    ensures { result ≡ call_waits clock timeout session queued.now call.now }
{
    match &call.progress {
        None => true,
        Some(progress) => is_waits(row_of(clock, timeout, session, queued, progress)),
    }
}

// Whether none of these calls of a session gives anything.
fn all_wait(
    clock: u64,
    timeout: u64,
    session: SessionNo,
    queued: &Listed<Queued>,
    calls: &[Call],
) -> bool
    ensures { result ≡ list_all (call_waits clock timeout session queued.now) calls.now }
{
    calls
        .iter()
        .all(|call| call_waits(clock, timeout, session, queued, call))
}

// Whether no call of a session gives anything. Those that wait, which may be many, give nothing.
fn calls_wait(
    clock: u64,
    timeout: u64,
    session: SessionNo,
    queued: &Listed<Queued>,
    calls: &Calls,
) -> bool
    ensures { result ≡ list_all (call_waits clock timeout session queued.now) calls.now }
{
    all_wait(clock, timeout, session, queued, calls.begun())
}

/// Whether no call of client session `i` gives anything at `clock`, be it active or waiting; the
/// clock and the timeout are in microseconds. It is asked first, since the calls of a session are
/// many and seldom time out.
pub fn is_quiet(lists: &Lists, clock: u64, timeout: u64, i: usize) -> bool
    ensures { result ≡ client_waits clock timeout lists.now.queued (slice_get lists.now.clients i) }
{
    let sessions = lists.clients.len();
    if sessions <= i {
        return true;
    }
    let client = lists.clients.at(i);
    calls_wait(
        clock,
        timeout,
        client.way.number,
        &lists.queued,
        &client.calls,
    )
}
