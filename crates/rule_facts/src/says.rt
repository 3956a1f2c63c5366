//! Whether a fact of a node, with no bytes, tells just this: tests by which the facts of a history
//! are compared with those of the rules. Numbers of a rule may be wider than those of an event.
ghost use Rattle.std.specs.Prelude.{◌≡◌, ◌&&◌};
ghost use Rattle.rule_facts.specs.Tells.{is_node, is_plain, is_reason, reason_number};
ghost use Rattle.rule_facts.specs.Tells.{tells_accepted, tells_again, tells_begun, tells_broken};
ghost use Rattle.rule_facts.specs.Tells.{tells_closed_heard, tells_closed_unheard};
ghost use Rattle.rule_facts.specs.Tells.{tells_connected, tells_declined, tells_done_peer_lost};
ghost use Rattle.rule_facts.specs.Tells.{tells_done_too_small, tells_dropped, tells_ended};
ghost use Rattle.rule_facts.specs.Tells.{tells_failed_no_answer, tells_failed_no_room};
ghost use Rattle.rule_facts.specs.Tells.{tells_flushed, tells_given, tells_heard, tells_polled};
ghost use Rattle.rule_facts.specs.Tells.{tells_posted, tells_rolled, tells_starved, tells_took};

use packet_header::Life;
use rpc_base::{CallNo, DropReason, Event, Fact, NodeId, Owner, Peer, RequestNo, SessionNo, Who};

/// Whether it happened at this node.
pub fn is_node(who: Who, me: NodeId) -> bool
    ensures { result ≡ is_node me who }
{
    match who {
        Who::Node(node) => node.0 == me.0,
        Who::Net => false,
    }
}

// Whether a fact is one of this node, with no bytes.
fn is_plain(fact: &Fact, me: NodeId) -> bool
    ensures { result ≡ is_plain me fact.now }
{
    is_node(fact.who, me) && fact.first.is_empty() && fact.second.is_empty()
}

// The place of a reason in its type.
fn reason_number(reason: DropReason) -> u8
    ensures { result ≡ reason_number reason }
{
    match reason {
        DropReason::StaleLife => 0,
        DropReason::NoSession => 1,
        DropReason::WrongPeer => 2,
        DropReason::Old => 3,
        DropReason::NotFirst => 4,
        DropReason::Working => 5,
        DropReason::Unserved => 6,
        DropReason::JobsFull => 7,
        DropReason::NoMemory => 8,
        DropReason::Mismatch => 9,
        DropReason::Ahead => 10,
        DropReason::Beyond => 11,
        DropReason::NoCall => 12,
        DropReason::Past => 13,
        DropReason::Queued => 14,
    }
}

fn is_reason(reason: DropReason, other: DropReason) -> bool
    ensures { result ≡ is_reason reason other }
{
    reason_number(reason) == reason_number(other)
}

/// Whether a fact of the node says that the oldest control packet was handled.
pub fn says_heard(fact: &Fact, me: NodeId) -> bool
    ensures { result ≡ (is_plain me fact.now && tells_heard fact.now.event) }
{
    if !is_plain(fact, me) {
        return false;
    }
    matches!(&fact.event, Event::Heard)
}

/// Whether a fact of the node says that a connect request made this server session, whose client
/// has this life.
pub fn says_accepted(
    fact: &Fact,
    me: NodeId,
    session: SessionNo,
    peer: Peer,
    client: SessionNo,
    credits: u16,
    life: Life,
) -> bool
    ensures { result ≡ (is_plain me fact.now
        && tells_accepted session peer client credits life fact.now.event) }
{
    if !is_plain(fact, me) {
        return false;
    }
    let Event::Accepted {
        session: x0,
        peer: x1,
        client: x2,
        credits: x3,
        life: x4,
    } = &fact.event
    else {
        return false;
    };
    x0.0 == session.0 && x1.0 == peer.0 && x2.0 == client.0 && *x3 == credits && *x4 == life.0
}

/// Whether a fact of the node says that a connect request found no room.
pub fn says_declined(fact: &Fact, me: NodeId, peer: Peer, client: SessionNo, credits: u16) -> bool
    ensures { result ≡ (is_plain me fact.now && tells_declined peer client credits fact.now.event) }
{
    if !is_plain(fact, me) {
        return false;
    }
    let Event::Declined {
        peer: x0,
        client: x1,
        credits: x2,
    } = &fact.event
    else {
        return false;
    };
    x0.0 == peer.0 && x1.0 == client.0 && *x2 == credits
}

/// Whether a fact of the node says that a connect request found no memory.
pub fn says_starved(fact: &Fact, me: NodeId, peer: Peer, client: SessionNo, credits: u16) -> bool
    ensures { result ≡ (is_plain me fact.now && tells_starved peer client credits fact.now.event) }
{
    if !is_plain(fact, me) {
        return false;
    }
    let Event::Starved {
        peer: x0,
        client: x1,
        credits: x2,
    } = &fact.event
    else {
        return false;
    };
    x0.0 == peer.0 && x1.0 == client.0 && *x2 == credits
}

/// Whether a fact of the node says that a client session is connected with this server session, in
/// this life of its node.
pub fn says_connected(
    fact: &Fact,
    me: NodeId,
    session: SessionNo,
    server: SessionNo,
    life: Life,
) -> bool
    ensures { result ≡ (is_plain me fact.now
        && tells_connected session server life fact.now.event) }
{
    if !is_plain(fact, me) {
        return false;
    }
    let Event::Connected {
        session: x0,
        server: x1,
        life: x2,
    } = &fact.event
    else {
        return false;
    };
    x0.0 == session.0 && x1.0 == server.0 && *x2 == life.0
}

/// Whether a fact of the node says that a client session failed, since its server has no room.
pub fn says_failed_no_room(fact: &Fact, me: NodeId, session: SessionNo) -> bool
    ensures { result ≡ (is_plain me fact.now && tells_failed_no_room session fact.now.event) }
{
    if !is_plain(fact, me) {
        return false;
    }
    let Event::FailedNoRoom { session: told } = &fact.event else {
        return false;
    };
    told.0 == session.0
}

/// Whether a fact of the node says that a client session failed, since no answer came.
pub fn says_failed_no_answer(fact: &Fact, me: NodeId, session: SessionNo) -> bool
    ensures { result ≡ (is_plain me fact.now && tells_failed_no_answer session fact.now.event) }
{
    if !is_plain(fact, me) {
        return false;
    }
    let Event::FailedNoAnswer { session: told } = &fact.event else {
        return false;
    };
    told.0 == session.0
}

/// Whether a fact of the node says that a client session is closed, as its server confirmed.
pub fn says_closed_heard(fact: &Fact, me: NodeId, session: SessionNo) -> bool
    ensures { result ≡ (is_plain me fact.now && tells_closed_heard session fact.now.event) }
{
    if !is_plain(fact, me) {
        return false;
    }
    let Event::ClosedHeard { session: told } = &fact.event else {
        return false;
    };
    told.0 == session.0
}

/// Whether a fact of the node says that a client session is closed, and its server was not heard.
pub fn says_closed_unheard(fact: &Fact, me: NodeId, session: SessionNo) -> bool
    ensures { result ≡ (is_plain me fact.now && tells_closed_unheard session fact.now.event) }
{
    if !is_plain(fact, me) {
        return false;
    }
    let Event::ClosedUnheard { session: told } = &fact.event else {
        return false;
    };
    told.0 == session.0
}

/// Whether a fact of the node says that a server session is over.
pub fn says_ended(fact: &Fact, me: NodeId, session: SessionNo) -> bool
    ensures { result ≡ (is_plain me fact.now && tells_ended session fact.now.event) }
{
    if !is_plain(fact, me) {
        return false;
    }
    let Event::Ended { session: told } = &fact.event else {
        return false;
    };
    told.0 == session.0
}

/// Whether a fact of the node says that a client session lost its peer.
pub fn says_broken(fact: &Fact, me: NodeId, session: SessionNo) -> bool
    ensures { result ≡ (is_plain me fact.now && tells_broken session fact.now.event) }
{
    if !is_plain(fact, me) {
        return false;
    }
    let Event::Broken { session: told } = &fact.event else {
        return false;
    };
    told.0 == session.0
}

/// Whether a fact of the node says that a call has this request number.
pub fn says_begun(fact: &Fact, me: NodeId, call: CallNo, request: u128) -> bool
    ensures { result ≡ (is_plain me fact.now && tells_begun call request fact.now.event) }
{
    if !is_plain(fact, me) {
        return false;
    }
    let Event::Begun {
        call: x0,
        request: x1,
    } = &fact.event
    else {
        return false;
    };
    x0.0 == call.0 && u128::from(x1.get()) == request
}

/// Whether a fact of the node says that a packet of this owner was posted.
pub fn says_posted(fact: &Fact, me: NodeId, owner: Owner, number: u64) -> bool
    ensures { result ≡ (is_plain me fact.now && tells_posted owner number fact.now.event) }
{
    if !is_plain(fact, me) {
        return false;
    }
    let Event::Posted {
        owner: x0,
        number: x1,
    } = &fact.event
    else {
        return false;
    };
    x0.is_same(owner) && u64::from(*x1) == number
}

/// Whether a fact of the node says that a packet of this owner was taken out unsent.
pub fn says_flushed(fact: &Fact, me: NodeId, owner: Owner, number: u64) -> bool
    ensures { result ≡ (is_plain me fact.now && tells_flushed owner number fact.now.event) }
{
    if !is_plain(fact, me) {
        return false;
    }
    let Event::Flushed {
        owner: x0,
        number: x1,
    } = &fact.event
    else {
        return false;
    };
    x0.is_same(owner) && u64::from(*x1) == number
}

/// Whether a fact of the node says that the packet in front was taken.
pub fn says_took(fact: &Fact, me: NodeId, owner: Owner, number: u64) -> bool
    ensures { result ≡ (is_plain me fact.now && tells_took owner number fact.now.event) }
{
    if !is_plain(fact, me) {
        return false;
    }
    let Event::Took {
        owner: x0,
        number: x1,
    } = &fact.event
    else {
        return false;
    };
    x0.is_same(owner) && u64::from(*x1) == number
}

/// Whether a fact of the node says that the packet in front was answered again.
pub fn says_again(fact: &Fact, me: NodeId, owner: Owner, number: u64) -> bool
    ensures { result ≡ (is_plain me fact.now && tells_again owner number fact.now.event) }
{
    if !is_plain(fact, me) {
        return false;
    }
    let Event::Again {
        owner: x0,
        number: x1,
    } = &fact.event
    else {
        return false;
    };
    x0.is_same(owner) && u64::from(*x1) == number
}

/// Whether a fact of the node says that the packet in front was dropped, for this reason.
pub fn says_dropped(fact: &Fact, me: NodeId, reason: DropReason) -> bool
    ensures { result ≡ (is_plain me fact.now && tells_dropped reason fact.now.event) }
{
    if !is_plain(fact, me) {
        return false;
    }
    let Event::Dropped { reason: told } = &fact.event else {
        return false;
    };
    is_reason(*told, reason)
}

/// Whether a fact of the node says that a request became a background job.
pub fn says_given(fact: &Fact, me: NodeId, session: SessionNo, request: RequestNo) -> bool
    ensures { result ≡ (is_plain me fact.now && tells_given session request fact.now.event) }
{
    if !is_plain(fact, me) {
        return false;
    }
    let Event::Given {
        session: x0,
        request: x1,
    } = &fact.event
    else {
        return false;
    };
    x0.0 == session.0 && x1.get() == request.get()
}

/// Whether a fact of the node says that a call was rolled back from `posted` to `got`.
pub fn says_rolled(fact: &Fact, me: NodeId, call: CallNo, posted: u64, got: u64) -> bool
    ensures { result ≡ (is_plain me fact.now && tells_rolled call posted got fact.now.event) }
{
    if !is_plain(fact, me) {
        return false;
    }
    let Event::Rolled {
        call: x0,
        posted: x1,
        got: x2,
    } = &fact.event
    else {
        return false;
    };
    x0.0 == call.0 && u64::from(*x1) == posted && u64::from(*x2) == got
}

/// Whether a fact of the node says that a call ended, since its answer of `size` bytes has no
/// room.
pub fn says_done_too_small(fact: &Fact, me: NodeId, call: CallNo, size: u32) -> bool
    ensures { result ≡ (is_plain me fact.now && tells_done_too_small call size fact.now.event) }
{
    if !is_plain(fact, me) {
        return false;
    }
    let Event::DoneTooSmall { call: x0, size: x1 } = &fact.event else {
        return false;
    };
    x0.0 == call.0 && *x1 == size
}

/// Whether a fact of the node says that a call ended, since its session lost its peer.
pub fn says_done_peer_lost(fact: &Fact, me: NodeId, call: CallNo) -> bool
    ensures { result ≡ (is_plain me fact.now && tells_done_peer_lost call fact.now.event) }
{
    if !is_plain(fact, me) {
        return false;
    }
    let Event::DonePeerLost { call: told } = &fact.event else {
        return false;
    };
    told.0 == call.0
}

/// Whether a fact of the node says that a poll ended at this clock, in microseconds.
pub fn says_polled(fact: &Fact, me: NodeId, now: u64) -> bool
    ensures { result ≡ (is_plain me fact.now && tells_polled now fact.now.event) }
{
    if !is_plain(fact, me) {
        return false;
    }
    let Event::Polled { now: told } = &fact.event else {
        return false;
    };
    *told == now
}
