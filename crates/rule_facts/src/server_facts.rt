//! Which facts a Request or RFR notes: those of its row of the server rule. Whether memory was
//! wanting, and what the handler answered, is told by the facts.
ghost use Rattle.std.specs.Prelude.{◌≡◌, ◌≤◌, ◌++◌, ◌∷◌, [], ℕ, List, IfOk, IfSome};
ghost use Rattle.memory_count.specs.Faults.{HasCause};
ghost use Rattle.std.specs.List.{find};
ghost use Rattle.rpc_base.specs.declared.event.Event.TheVariants.{Again, Given, Posted, Ran, Took};
ghost use Rattle.rpc_base.specs.declared.owner.Owner.TheVariants.{Reply};
ghost use Rattle.rpc_laws.specs.Facts.{plain, with_two};
ghost use Rattle.rpc_laws.specs.Requests.{is_request, is_server};
ghost use Rattle.rpc_laws.specs.ServerTable.{brings, flushes_older, joined, took_facts, whole_ask};
ghost use Rattle.rpc_laws.specs.declared.rows.ServerRow.TheVariants.{Begins, Takes};
ghost use Rattle.rpc_outside.specs.PlainAnswer.{plain_mode};
ghost use Rattle.rule_facts.specs.Finishing.{says_ran, tells_ran};
ghost use Rattle.rule_facts.specs.Fronts.{Fronts, told_answer};
ghost use Rattle.rule_facts.specs.Handling.{SomeFronts, asked_by, asked_facts, row_facts};

use crate::front_facts::{dropped, is_joined};
use crate::says::{is_node, says_again, says_given, says_posted, says_took};
use crate::session_ends::slot_flushed;
use memory_count::{Memory, NoMemory};
use node_rules::{are_full, makes_job, server_row};
use node_tables::{place_of_request, place_of_server};
use packet_header::MessageHeader;
use rpc_base::{Event, Fact, Listed, NodeId, Owner, Peer, RequestNo};
use rpc_laws::{Lists, Served, Server, ServerRow};
use rpc_outside::{Mode, PlainService, Service};

// How the plain service handles the requests of a type.
fn plain_mode(req_type: u8) -> Mode
    ensures { result ≡ plain_mode req_type }
{
    let service = PlainService::new();
    service.mode(req_type)
}

// The server's packets of a packet's request.
fn owner_of(head: &MessageHeader) -> Owner
    ensures { result ≡ Reply head.now.session head.now.request }
{
    Owner::Reply {
        session: head.session,
        request: head.request,
    }
}

// The bytes of a request that were taken so far, none where it isn't there.
fn taken_in(slots: &Listed<Served>, request: RequestNo) -> &[u8]
    ensures { (body : List ℕ) → joined (find (is_request request) slots.now) body
        ≡ result.now ++ body }
{
    let Some(place) = place_of_request(slots, request) else {
        return &[];
    };
    slots.at(place).ask.bytes()
}

// The bytes of a packet's request that were taken before it.
fn taken_before<'a>(servers: &'a Listed<Server>, head: &MessageHeader) -> &'a [u8]
    ensures { (body : List ℕ) → whole_ask (find (is_server head.now.session) servers.now)
        head.now.request body ≡ result.now ++ body }
{
    let Some(place) = place_of_server(servers, head.session) else {
        return &[];
    };
    taken_in(&servers.at(place).slots, head.request)
}

// Whether an event tells that the handler of a packet's request ran.
fn tells_ran(event: &Event, head: &MessageHeader) -> bool
    ensures { result ≡ tells_ran (asked_by head.now []) event.now }
{
    let Event::Ran {
        session,
        request,
        req_type,
    } = event
    else {
        return false;
    };
    session.0 == head.session.0 && request.get() == head.request.get() && *req_type == head.req_type
}

// And a fact of the node, on the bytes taken before and those of the packet.
fn says_ran(fact: &Fact, me: NodeId, head: &MessageHeader, before: &[u8], body: &[u8]) -> bool
    ensures { result ≡ says_ran me (asked_by head.now (before.now ++ body.now)) fact.now }
{
    is_node(fact.who, me)
        && tells_ran(&fact.event, head)
        && is_joined(fact.first.bytes(), before, body)
}

// How many of the facts post the answer to a packet.
fn posted(me: NodeId, head: &MessageHeader, facts: &[Fact]) -> Option<usize>
    ensures fronts { Fronts (plain me (Posted (Reply head.now.session head.now.request)
        head.now.number) ∷ []) facts.now result }
    ensures few { IfSome result (λ n. n ≤ 1) }
{
    if facts.is_empty() || !says_posted(&facts[0], me, owner_of(head), u64::from(head.number)) {
        return None;
    }
    Some(1)
}

// Its request became a background job.
fn given(me: NodeId, head: &MessageHeader, facts: &[Fact]) -> Option<usize>
    ensures fronts { Fronts (plain me (Given head.now.session head.now.request) ∷ []) facts.now
        result }
    ensures few { IfSome result (λ n. n ≤ 1) }
{
    if facts.is_empty() || !says_given(&facts[0], me, head.session, head.request) {
        return None;
    }
    Some(1)
}

// The handler ran, and the packet is answered.
fn ran(
    me: NodeId,
    head: &MessageHeader,
    before: &[u8],
    body: &[u8],
    facts: &[Fact],
) -> Option<usize>
    ensures fronts { Fronts (with_two me (Ran head.now.session head.now.request head.now.req_type)
        (before.now ++ body.now) (told_answer facts.now)
        ∷ plain me (Posted (Reply head.now.session head.now.request) head.now.number) ∷ [])
        facts.now result }
    ensures few { IfSome result (λ n. n ≤ 2) }
{
    if facts.is_empty() || !says_ran(&facts[0], me, head, before, body) {
        return None;
    }
    let Some(more) = posted(me, head, &facts[1..]) else {
        return None;
    };
    Some(more + 1)
}

// What a packet that is taken brings besides.
fn brought(
    mode: Mode,
    me: NodeId,
    head: &MessageHeader,
    before: &[u8],
    body: &[u8],
    facts: &[Fact],
) -> Option<usize>
    ensures fronts { Fronts (brings mode me (told_answer facts.now) head.now
        (before.now ++ body.now)) facts.now result }
    ensures few { IfSome result (λ n. n ≤ 2) }
{
    if makes_job(mode, head) {
        return given(me, head, facts);
    }
    if head.is_last() {
        return ran(me, head, before, body, facts);
    }
    posted(me, head, facts)
}

// How many of the facts say that a packet was taken.
fn taken(me: NodeId, head: &MessageHeader, facts: &[Fact]) -> Option<usize>
    ensures fronts { Fronts (plain me (Took (Reply head.now.session head.now.request)
        head.now.number) ∷ []) facts.now result }
    ensures few { IfSome result (λ n. n ≤ 1) }
{
    if facts.is_empty() || !says_took(&facts[0], me, owner_of(head), u64::from(head.number)) {
        return None;
    }
    Some(1)
}

// And what it brings besides.
fn took(
    mode: Mode,
    me: NodeId,
    head: &MessageHeader,
    before: &[u8],
    body: &[u8],
    facts: &[Fact],
) -> Option<usize>
    ensures fronts { SomeFronts (λ case. took_facts mode me case.answer head.now
        (before.now ++ body.now)) facts.now result }
    ensures few { IfSome result (λ n. n ≤ 3) }
{
    let Some(count) = taken(me, head, facts) else {
        return None;
    };
    let Some(more) = brought(mode, me, head, before, body, &facts[count..]) else {
        return None;
    };
    Some(count + more)
}

// The queued replies to the older request of its slot are taken out.
fn older_flushed(
    memory: &mut Memory,
    lists: &Lists,
    head: &MessageHeader,
    facts: &[Fact],
) -> Result<Option<usize>, NoMemory>
    ensures fronts { IfOk result (Fronts (flushes_older lists.now.me lists.now.queued
        (find (is_server head.now.session) lists.now.servers) head.now.request) facts.now) }
    ensures cause { HasCause memory.old memory.new result }
{
    let Some(place) = place_of_server(&lists.servers, head.session) else {
        return Ok(Some(0));
    };
    let server = lists.servers.at(place);
    let count = slot_flushed(memory, lists.me, &lists.queued, server, head.request, facts)?;
    Ok(count)
}

// A request begins.
fn began(
    memory: &mut Memory,
    lists: &Lists,
    mode: Mode,
    head: &MessageHeader,
    body: &[u8],
    facts: &[Fact],
) -> Result<Option<usize>, NoMemory>
    ensures fronts { IfOk result (SomeFronts (row_facts mode lists.now head.now body.now Begins)
        facts.now) }
    ensures cause { HasCause memory.old memory.new result }
{
    let Some(count) = older_flushed(memory, lists, head, facts)? else {
        return Ok(None);
    };
    let Some(more) = took(mode, lists.me, head, &[], body, &facts[count..]) else {
        return Ok(None);
    };
    Ok(Some(count + more))
}

// A request goes on.
fn went_on(
    lists: &Lists,
    mode: Mode,
    head: &MessageHeader,
    body: &[u8],
    facts: &[Fact],
) -> Option<usize>
    ensures { SomeFronts (row_facts mode lists.now head.now body.now Takes) facts.now result }
{
    let before = taken_before(&lists.servers, head);
    took(mode, lists.me, head, before, body, facts)
}

// A packet that was taken before is answered once more.
fn repeated(me: NodeId, head: &MessageHeader, facts: &[Fact]) -> Option<usize>
    ensures { Fronts (plain me (Again (Reply head.now.session head.now.request) head.now.number)
        ∷ plain me (Posted (Reply head.now.session head.now.request) head.now.number) ∷ [])
        facts.now result }
{
    if facts.is_empty() || !says_again(&facts[0], me, owner_of(head), u64::from(head.number)) {
        return None;
    }
    let Some(more) = posted(me, head, &facts[1..]) else {
        return None;
    };
    Some(more + 1)
}

// How many of the facts are those of a row.
fn row_noted(
    memory: &mut Memory,
    lists: &Lists,
    mode: Mode,
    head: &MessageHeader,
    body: &[u8],
    row: ServerRow,
    facts: &[Fact],
) -> Result<Option<usize>, NoMemory>
    ensures fronts { IfOk result (SomeFronts (row_facts mode lists.now head.now body.now row)
        facts.now) }
    ensures cause { HasCause memory.old memory.new result }
{
    match row {
        ServerRow::Drops(reason) => Ok(dropped(lists.me, reason, facts)),
        ServerRow::Begins => began(memory, lists, mode, head, body, facts),
        ServerRow::Takes => Ok(went_on(lists, mode, head, body, facts)),
        ServerRow::Repeats => Ok(repeated(lists.me, head, facts)),
    }
}

/// How many of the facts handle a Request or RFR of this peer with this body, at a node of the
/// plain service. `None` comes exactly where no front of them does, whatever memory wants and the
/// handler answers.
pub fn asked(
    memory: &mut Memory,
    lists: &Lists,
    peer: Peer,
    head: &MessageHeader,
    body: &[u8],
    facts: &[Fact],
) -> Result<Option<usize>, NoMemory>
    ensures fronts { IfOk result (SomeFronts (asked_facts lists.now peer head.now body.now)
        facts.now) }
    ensures cause { HasCause memory.old memory.new result }
{
    let mode = plain_mode(head.req_type);
    let full = are_full(&lists.jobs);
    let row = server_row(mode, full, false, &lists.servers, peer, head);
    if let Some(count) = row_noted(memory, lists, mode, head, body, row, facts)? {
        return Ok(Some(count));
    }
    let starved = server_row(mode, full, true, &lists.servers, peer, head);
    let count = row_noted(memory, lists, mode, head, body, starved, facts)?;
    Ok(count)
}
