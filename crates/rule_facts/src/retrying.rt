//! "The retry rule" of docs/PROTOCOL.md: what a client session does about its own request, and
//! which facts tell it.
ghost use Rattle.std.specs.Prelude.{◌∷◌, [], Some, map, slice_get};
ghost use Rattle.rpc_base.specs.declared.event.Event.TheVariants.{ClosedUnheard, FailedNoAnswer};
ghost use Rattle.rpc_laws.specs.ControlSteps.{RetriesBy, RetriesOf, given_up};
ghost use Rattle.rpc_laws.specs.Facts.{plain};
ghost use Rattle.rule_facts.specs.Fronts.{Fronts};
ghost use Rattle.rule_facts.specs.Retrying.{IsFront};

use crate::control_facts::none;
use crate::says::{says_closed_unheard, says_failed_no_answer};
use crate::speaking::spoken;
use node_rules::{own_request, retry_row};
use packet_header::{ControlHeader, Life};
use rpc_base::{Fact, NodeId, SessionNo, SessionState};
use rpc_laws::{Client, Lists, RetryRow};

// No answer to a connect came.
fn failed(me: NodeId, session: SessionNo, facts: &[Fact]) -> Option<usize>
    ensures { Fronts (plain me (FailedNoAnswer session) ∷ []) facts.now result }
{
    if facts.is_empty() || !says_failed_no_answer(&facts[0], me, session) {
        return None;
    }
    Some(1)
}

// No answer to a disconnect came.
fn closed(me: NodeId, session: SessionNo, facts: &[Fact]) -> Option<usize>
    ensures { Fronts (plain me (ClosedUnheard session) ∷ []) facts.now result }
{
    if facts.is_empty() || !says_closed_unheard(&facts[0], me, session) {
        return None;
    }
    Some(1)
}

// How many of the facts give up a session.
fn gave_up(me: NodeId, state: SessionState, session: SessionNo, facts: &[Fact]) -> Option<usize>
    ensures { Fronts (map (plain me) (given_up state session)) facts.now result }
{
    match state {
        SessionState::Connecting => failed(me, session, facts),
        SessionState::Closing => closed(me, session, facts),
        SessionState::Unknown => none(facts),
        SessionState::Connected => none(facts),
        SessionState::Closed => none(facts),
        SessionState::Failed => none(facts),
        SessionState::Broken => none(facts),
        SessionState::Spent => none(facts),
    }
}

// How many of the facts are those of a row, for a session with this request of its own.
fn retried_by(
    me: NodeId,
    row: RetryRow,
    client: &Client,
    head: &ControlHeader,
    facts: &[Fact],
) -> Option<usize>
    ensures { IsFront (RetriesBy row me client.now head.now) facts.now result }
{
    match row {
        RetryRow::Rests => Some(0),
        RetryRow::Asks => spoken(me, client.way.peer, head, facts),
        RetryRow::GivesUp => gave_up(me, client.state, client.way.number, facts),
    }
}

// So many of them are what a session of an endpoint of this life does.
fn client_retried(
    clock: u64,
    timeout: u64,
    me: NodeId,
    own: Life,
    client: &Client,
    facts: &[Fact],
) -> Option<usize>
    ensures { IsFront (RetriesOf clock timeout me own (Some client.now)) facts.now result }
{
    let Some(head) = own_request(own, client) else {
        return Some(0);
    };
    let row = retry_row(clock, timeout, client.sends, client.sent_at);
    retried_by(me, row, client, &head, facts)
}

/// How many of the facts are what client session `i` does at `clock` about its own request; the
/// clock and the timeout are in microseconds. Whether the link took the request is told by the
/// facts. `None` comes exactly where no front of them is that.
pub fn retried(lists: &Lists, clock: u64, timeout: u64, i: usize, facts: &[Fact]) -> Option<usize>
    ensures { IsFront (RetriesOf clock timeout lists.now.me lists.now.life
        (slice_get lists.now.clients i)) facts.now result }
{
    let sessions = lists.clients.len();
    if sessions <= i {
        return Some(0);
    }
    let client = lists.clients.at(i);
    client_retried(clock, timeout, lists.me, lists.life, client, facts)
}
