//! Which facts a CR or Response notes: those of its row of the client rule.
ghost use Rattle.std.specs.Prelude.{◌≡◌, ◌++◌, ◌∷◌, []};
ghost use Rattle.std.specs.List.{find};
ghost use Rattle.rpc_base.specs.declared.event.Event.TheVariants.{DoneOk, DoneTooSmall, Took};
ghost use Rattle.rpc_base.specs.declared.owner.Owner.TheVariants.{Ask};
ghost use Rattle.rpc_laws.specs.Calls.{is_active, with_reply};
ghost use Rattle.rpc_laws.specs.ClientTable.{call_ending, client_ending, end_facts, ending_of};
ghost use Rattle.rpc_laws.specs.Facts.{plain, with_bytes};
ghost use Rattle.rpc_laws.specs.PollOrder.{replies_facts};
ghost use Rattle.rpc_laws.specs.Sessions.{is_client};
ghost use Rattle.rule_facts.specs.Fronts.{Fronts};
ghost use Rattle.rule_facts.specs.Handling.{says_done_ok, tells_done_ok};

use crate::front_facts::{dropped, is_joined};
use crate::says::{is_node, says_done_too_small, says_took};
use node_rules::{client_row, end_row};
use node_tables::{place_of_active, place_of_client};
use packet_header::MessageHeader;
use rpc_base::{CallNo, Event, Fact, NodeId, Owner, Peer};
use rpc_laws::{Asking, Call, Client, ClientRow, EndRow, Lists, Progress};

fn tells_done_ok(event: &Event, call: CallNo) -> bool
    ensures { result ≡ tells_done_ok call event.now }
{
    let Event::DoneOk { call: told } = event else {
        return false;
    };
    told.0 == call.0
}

// Whether a fact says that a call ended with its answer: its parts before, and the last one.
fn says_done_ok(fact: &Fact, me: NodeId, call: CallNo, before: &[u8], last: &[u8]) -> bool
    ensures { result ≡ says_done_ok me call (before.now ++ last.now) fact.now }
{
    is_node(fact.who, me)
        && tells_done_ok(&fact.event, call)
        && is_joined(fact.first.bytes(), before, last)
        && fact.second.is_empty()
}

// How many of the facts say so.
fn done_ok(me: NodeId, call: CallNo, before: &[u8], last: &[u8], facts: &[Fact]) -> Option<usize>
    ensures { Fronts (with_bytes me (DoneOk call) (before.now ++ last.now) ∷ []) facts.now result }
{
    if facts.is_empty() || !says_done_ok(&facts[0], me, call, before, last) {
        return None;
    }
    Some(1)
}

// The answer of a call, of so many bytes, has no room.
fn done_too_small(me: NodeId, call: CallNo, size: u32, facts: &[Fact]) -> Option<usize>
    ensures { Fronts (plain me (DoneTooSmall call size) ∷ []) facts.now result }
{
    if facts.is_empty() || !says_done_too_small(&facts[0], me, call, size) {
        return None;
    }
    Some(1)
}

// A call ends, or goes on.
fn ended(
    me: NodeId,
    call: CallNo,
    row: EndRow,
    before: &[u8],
    last: &[u8],
    facts: &[Fact],
) -> Option<usize>
    ensures { Fronts (end_facts me call (before.now ++ last.now) row) facts.now result }
{
    match row {
        EndRow::GoesOn => Some(0),
        EndRow::EndsOk => done_ok(me, call, before, last, facts),
        EndRow::EndsTooSmall(size) => done_too_small(me, call, size, facts),
    }
}

// So does an active call that takes this reply.
fn active_ended(
    me: NodeId,
    what: &Asking,
    head: &MessageHeader,
    body: &[u8],
    progress: &Progress,
    facts: &[Fact],
) -> Option<usize>
    ensures { Fronts (ending_of me what.now progress.now
        (with_reply head.now body.now progress.now)) facts.now result }
{
    let is_first = progress.answer.is_none();
    let got = u128::from(progress.got) + 1;
    let parts = progress.parts.bytes();
    if head.kind.is_response() {
        let row = end_row(is_first, what, got, Some(head.size));
        return ended(me, what.number, row, parts, body, facts);
    }
    let row = end_row(is_first, what, got, progress.answer);
    ended(me, what.number, row, parts, &[], facts)
}

fn call_ended(
    me: NodeId,
    head: &MessageHeader,
    body: &[u8],
    call: &Call,
    facts: &[Fact],
) -> Option<usize>
    ensures { Fronts (call_ending me head.now body.now (Some call.now)) facts.now result }
{
    match &call.progress {
        None => Some(0),
        Some(progress) => active_ended(me, &call.what, head, body, progress, facts),
    }
}

// The active call of a session that the reply names.
fn session_ended(
    me: NodeId,
    head: &MessageHeader,
    body: &[u8],
    client: &Client,
    facts: &[Fact],
) -> Option<usize>
    ensures { Fronts (client_ending me head.now body.now (Some client.now)) facts.now result }
{
    let Some(place) = place_of_active(&client.calls, head.request) else {
        return Some(0);
    };
    call_ended(me, head, body, client.calls.at(place), facts)
}

// The call that the reply names.
fn named_ended(lists: &Lists, head: &MessageHeader, body: &[u8], facts: &[Fact]) -> Option<usize>
    ensures { Fronts (client_ending lists.now.me head.now body.now
        (find (is_client head.now.session) lists.now.clients)) facts.now result }
{
    let Some(place) = place_of_client(&lists.clients, head.session) else {
        return Some(0);
    };
    session_ended(lists.me, head, body, lists.clients.at(place), facts)
}

// A reply is taken.
fn took(lists: &Lists, head: &MessageHeader, body: &[u8], facts: &[Fact]) -> Option<usize>
    ensures { Fronts (plain lists.now.me (Took (Ask head.now.session head.now.request)
        head.now.number) ∷ client_ending lists.now.me head.now body.now
        (find (is_client head.now.session) lists.now.clients)) facts.now result }
{
    let owner = Owner::Ask {
        session: head.session,
        request: head.request,
    };
    if facts.is_empty() || !says_took(&facts[0], lists.me, owner, u64::from(head.number)) {
        return None;
    }
    let Some(more) = named_ended(lists, head, body, &facts[1..]) else {
        return None;
    };
    Some(more + 1)
}

/// How many of the facts handle a CR or Response of this peer with this body. `None` comes exactly
/// where the facts don't begin with these.
pub fn replied(
    lists: &Lists,
    peer: Peer,
    head: &MessageHeader,
    body: &[u8],
    facts: &[Fact],
) -> Option<usize>
    ensures { Fronts (replies_facts lists.now peer head.now body.now) facts.now result }
{
    match client_row(&lists.queued, &lists.clients, peer, head, body.len()) {
        ClientRow::Drops(reason) => dropped(lists.me, reason, facts),
        ClientRow::Takes => took(lists, head, body, facts),
    }
}
