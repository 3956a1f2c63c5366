//! What a client session begins and posts next.
ghost use Rattle.std.specs.Prelude.{◌≡◌, option_and_then, option_map, slice_index};
ghost use Rattle.std.specs.List.{find, position};
ghost use Rattle.rpc_base.specs.declared.event.Event.TheVariants.{Begun, Posted};
ghost use Rattle.rpc_laws.specs.Posting.{beginning, can_post, holds_slot, is_taken, lowest_free};
ghost use Rattle.rpc_laws.specs.Posting.{next_begun, next_packet, next_posted, next_turn, posting};

use crate::client_rule::{asked_packets, known_packets};
use crate::noted::is_connected;
use rpc_base::{CallNo, Listed, Owner, SessionNo};
use rpc_laws::{Call, Calls, Client, Lists};

/// The slots of a session.
const SLOTS: [u8; 8] = [0, 1, 2, 3, 4, 5, 6, 7];

// Whether one of these calls has this slot.
fn some_holds(calls: &[Call], slot: u8) -> bool
    ensures { result ≡ is_taken calls.now slot }
{
    calls.iter().any(|call| holds_slot(call, slot))
}

// Whether an active call has this slot. The calls that wait, which may be many, have none.
fn is_taken(calls: &Calls, slot: u8) -> bool
    ensures { result ≡ is_taken calls.now slot }
{
    some_holds(calls.begun(), slot)
}

fn holds_slot(call: &Call, slot: u8) -> bool
    ensures { result ≡ holds_slot slot call.now.progress }
{
    match &call.progress {
        None => false,
        Some(progress) => progress.request.slot() == slot,
    }
}

// Whether a call has a packet that may be posted.
fn can_post(call: &Call) -> bool
    ensures { result ≡ can_post call.now }
{
    match &call.progress {
        None => false,
        Some(progress) => {
            let known = known_packets(asked_packets(&call.what), progress.answer);
            u128::from(progress.posted) < known
        }
    }
}

// Where the oldest of these calls stands that may post.
fn first_postable(calls: &[Call]) -> Option<usize>
    ensures { result ≡ position can_post calls.now }
{
    calls.iter().position(|call| can_post(call))
}

// Where the oldest call of a session stands that may post, which is none of those that wait.
fn place_of_posting(calls: &Calls) -> Option<usize>
    ensures { result ≡ position can_post calls.now }
{
    first_postable(calls.begun())
}

// The lowest free slot.
fn lowest_free(calls: &Calls) -> Option<usize>
    ensures { result ≡ lowest_free calls.now }
{
    SLOTS.iter().position(|slot| !is_taken(calls, *slot))
}

// How many requests began in a slot.
fn turn_of(turns: &Listed<u64>, slot: usize) -> u64
    ensures { result ≡ slice_index turns.now slot }
{
    if slot < turns.len() {
        return *turns.at(slot);
    }
    0
}

// The number of the next request of a slot, which may be more than a request has.
fn next_turn(turns: &Listed<u64>, slot: usize) -> u128
    ensures { result ≡ next_turn turns.now slot }
{
    slot as u128 + 8 * u128::from(turn_of(turns, slot))
}

// A call of this number begins in the lowest free slot, with this number of a request.
fn beginning_as(client: &Client, number: CallNo) -> Option<(CallNo, u128)>
    ensures { option_map (λ p. Begun p.0 p.1) result
        ≡ option_map (λ slot. Begun number (next_turn client.now.turns slot))
        (lowest_free client.now.calls) }
{
    let Some(slot) = lowest_free(&client.calls) else {
        return None;
    };
    Some((number, next_turn(&client.turns, slot)))
}

// The oldest waiting call, and the number of the request as which it begins.
fn beginning(client: &Client) -> Option<(CallNo, u128)>
    ensures { option_map (λ p. Begun p.0 p.1) result ≡ beginning client.now }
{
    let Some(place) = client.calls.place_of_waiting() else {
        return None;
    };
    beginning_as(client, client.calls.at(place).what.number)
}

// The owner and the number of the next packet of a call, where it is active.
fn next_packet(session: SessionNo, call: &Call) -> Option<(Owner, u64)>
    ensures { option_map (λ p. Posted p.0 p.1) result ≡ next_packet session call.now.progress }
{
    let progress = call.progress.as_ref()?;
    let owner = Owner::Ask {
        session,
        request: progress.request,
    };
    Some((owner, progress.posted))
}

// The oldest active call of a session that may post.
fn posting_of(session: SessionNo, calls: &Calls) -> Option<(Owner, u64)>
    ensures { option_map (λ p. Posted p.0 p.1) result
        ≡ option_and_then (λ c. next_packet session c.progress) (find can_post calls.now) }
{
    let Some(place) = place_of_posting(calls) else {
        return None;
    };
    next_packet(session, calls.at(place))
}

// It posts, where a credit is free.
fn posting(client: &Client) -> Option<(Owner, u64)>
    ensures { option_map (λ p. Posted p.0 p.1) result ≡ posting client.now }
{
    if client.free == 0 {
        return None;
    }
    posting_of(client.way.number, &client.calls)
}

/// The call that client session `i` begins next, with the number of its request. `None` comes
/// exactly where it begins none.
pub fn next_begun(lists: &Lists, i: usize) -> Option<(CallNo, u128)>
    ensures { option_map (λ p. Begun p.0 p.1) result ≡ next_begun i lists.now }
{
    let client = lists.clients.as_slice().get(i)?;
    if !is_connected(client.state) {
        return None;
    }
    beginning(client)
}

/// The owner and the number of the packet that client session `i` posts next. `None` comes exactly
/// where it posts none.
pub fn next_posted(lists: &Lists, i: usize) -> Option<(Owner, u64)>
    ensures { option_map (λ p. Posted p.0 p.1) result ≡ next_posted i lists.now }
{
    let client = lists.clients.as_slice().get(i)?;
    if !is_connected(client.state) {
        return None;
    }
    posting(client)
}
