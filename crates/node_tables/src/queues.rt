//! The receive ring, the inbox and the queue of posted packets, as events change them.
ghost use Rattle.std.specs.Prelude.{◌≡◌, ◌≤◌, [], ◌∷◌, ◌++◌, IfOk, OnOk, length, map, not};
ghost use Rattle.std.specs.List.{insert, list_any, position};
ghost use Rattle.memory_count.specs.Faults.{HasCause};
ghost use Rattle.rpc_base.specs.Tables.{without_first};
ghost use Rattle.rpc_laws.specs.Queues.{inbox_after, is_due, is_queued, is_reply, made_ready};
ghost use Rattle.rpc_laws.specs.Queues.{put_queued, queued_after, replies, ring_after};
ghost use Rattle.rpc_laws.specs.Queues.{stands_before};

use crate::reading::{read_control, read_message};
use memory_count::{Memory, NoMemory};
use rpc_base::{Event, Listed, Octets, Owner, Peer};
use rpc_laws::{Arrival, Queued};
use std::alloc::{AllocError, Global};
use std::mem;

fn push(
    memory: &mut Memory,
    arrivals: &mut Listed<Arrival>,
    peer: Peer,
    bytes: &[u8],
) -> Result<(), NoMemory>
    ensures arrivals { OnOk result
        (arrivals.new ≡ arrivals.old ++ record { peer = peer; bytes = bytes.now } ∷ []) }
    ensures cause { HasCause memory.old memory.new result }
{
    let bytes = Octets::from(memory.copied(bytes)?);
    memory.of(arrivals.push(Arrival { peer, bytes }))
}

fn push_message(
    memory: &mut Memory,
    ring: &mut Listed<Arrival>,
    peer: Peer,
    bytes: &[u8],
) -> Result<(), NoMemory>
    ensures ring { OnOk result (ring.new ≡ ring_after (Event.Arrived peer) bytes.now ring.old) }
    ensures cause { HasCause memory.old memory.new result }
{
    if read_message(bytes).is_none() {
        return Ok(());
    }
    push(memory, ring, peer, bytes)
}

fn push_control(
    memory: &mut Memory,
    inbox: &mut Listed<Arrival>,
    peer: Peer,
    bytes: &[u8],
) -> Result<(), NoMemory>
    ensures inbox { OnOk result (inbox.new ≡ inbox_after (Event.Arrived peer) bytes.now inbox.old) }
    ensures cause { HasCause memory.old memory.new result }
{
    if read_control(bytes).is_none() {
        return Ok(());
    }
    push(memory, inbox, peer, bytes)
}

/// The ring after an event of its node.
pub fn change_ring(
    memory: &mut Memory,
    ring: &mut Listed<Arrival>,
    event: &Event,
    bytes: &[u8],
) -> Result<(), NoMemory>
    ensures ring { OnOk result (ring.new ≡ ring_after event.now bytes.now ring.old) }
    ensures cause { HasCause memory.old memory.new result }
{
    match event {
        Event::Arrived { peer } => push_message(memory, ring, *peer, bytes)?,
        Event::Took { .. } => ring.drop_front(),
        Event::Again { .. } => ring.drop_front(),
        Event::Dropped { .. } => ring.drop_front(),
        _ => {}
    }
    Ok(())
}

/// The inbox after an event of its node.
pub fn change_inbox(
    memory: &mut Memory,
    inbox: &mut Listed<Arrival>,
    event: &Event,
    bytes: &[u8],
) -> Result<(), NoMemory>
    ensures inbox { OnOk result (inbox.new ≡ inbox_after event.now bytes.now inbox.old) }
    ensures cause { HasCause memory.old memory.new result }
{
    match event {
        Event::Arrived { peer } => push_control(memory, inbox, *peer, bytes)?,
        Event::Heard => inbox.drop_front(),
        _ => {}
    }
    Ok(())
}

// Where the owner's packet of this number stands in the queue.
fn place_of(queued: &Listed<Queued>, owner: Owner, number: u16) -> Option<usize>
    ensures { result ≡ position (is_queued owner number) queued.now }
{
    queued.as_slice().iter().position(|entry| entry.owner.is_same(owner) && entry.number == number)
}

// The first packet of this owner and number is taken out.
fn take_out(queued: &mut Listed<Queued>, owner: Owner, number: u16)
    ensures { queued.new ≡ without_first (is_queued owner number) queued.old }
{
    if let Some(place) = place_of(queued, owner, number) {
        queued.remove_at(place);
    }
}

// Whether a packet that is queued stands before one that is posted.
fn stands_before(entry: &Queued, due: Option<u64>) -> bool
    ensures { result ≡ stands_before entry.now.due due }
{
    match entry.due {
        None => true,
        Some(first) => match due {
            None => false,
            Some(second) => first <= second,
        },
    }
}

// Where the first packet stands that doesn't stand before one that is due then.
fn place_behind(queued: &Listed<Queued>, due: Option<u64>) -> Option<usize>
    ensures { result ≡ position (λ q. not (stands_before q.due due)) queued.now }
{
    queued
        .as_slice()
        .iter()
        .position(|entry| !stands_before(entry, due))
}

// One packet more, at a place.
fn insert(
    memory: &mut Memory,
    entries: &mut Vec<Queued>,
    place: usize,
    owner: Owner,
    number: u16,
    due: Option<u64>,
) -> Result<(), NoMemory>
    requires { place ≤ length entries.old.items }
    ensures items { OnOk result (entries.new.items ≡ insert entries.old.items place
        (record { owner = owner; number = number; due = due })) }
    ensures cause { HasCause memory.old memory.new result }
{
    let entry = Queued { owner, number, due };
    let inserted = entries.insert(place, entry).map_err(AllocError::from);
    memory.of(inserted)
}

// One packet more, behind those that stand before it.
fn put(
    memory: &mut Memory,
    queued: &mut Listed<Queued>,
    owner: Owner,
    number: u16,
    due: Option<u64>,
) -> Result<(), NoMemory>
    ensures queued { OnOk result (queued.new
        ≡ put_queued (record { owner = owner; number = number; due = due }) queued.old) }
    ensures cause { HasCause memory.old memory.new result }
{
    let place = place_behind(queued, due).unwrap_or(queued.len());
    let mut entries = mem::replace(queued, Listed::new(memory.alloc())).into_vec();
    insert(memory, &mut entries, place, owner, number, due)?;
    *queued = Listed::from(entries);
    Ok(())
}

/// Whether a packet may be sent at this clock.
pub fn is_due(due: Option<u64>, clock: u64) -> bool
    ensures { result ≡ is_due clock due }
{
    match due {
        None => true,
        Some(due) => due <= clock,
    }
}

// A packet from the end of a poll at this clock on.
fn made_ready(entry: &Queued, clock: u64) -> Queued
    ensures { result ≡ made_ready clock entry.now }
{
    if is_due(entry.due, clock) {
        Queued {
            due: None,
            ..*entry
        }
    } else {
        *entry
    }
}

// The entries from the end of a poll at this clock on.
fn ready_entries(alloc: Global, queued: &[Queued], clock: u64) -> Result<Vec<Queued>, AllocError>
    ensures { IfOk result (λ v. v.items ≡ map (made_ready clock) queued.now) }
{
    queued
        .iter()
        .map(|entry| made_ready(entry, clock))
        .collect(alloc)
}

// A poll ended at this clock: what was due is ready.
fn make_ready(memory: &mut Memory, queued: &mut Listed<Queued>, clock: u64) -> Result<(), NoMemory>
    ensures queued { OnOk result (queued.new ≡ map (made_ready clock) queued.old) }
    ensures cause { HasCause memory.old memory.new result }
{
    let ready = ready_entries(memory.alloc(), queued.as_slice(), clock);
    let entries = memory.of(ready)?;
    *queued = Listed::from(entries);
    Ok(())
}

/// The queue after an event of its node, by which a packet is due then where it is posted and
/// paced.
pub fn change_queued(
    memory: &mut Memory,
    queued: &mut Listed<Queued>,
    event: &Event,
    due: Option<u64>,
) -> Result<(), NoMemory>
    ensures queued { OnOk result (queued.new ≡ queued_after event.now due queued.old) }
    ensures cause { HasCause memory.old memory.new result }
{
    match event {
        Event::Posted { owner, number } => put(memory, queued, *owner, *number, due)?,
        Event::Sent { owner, number, .. } => take_out(queued, *owner, *number),
        Event::Flushed { owner, number } => take_out(queued, *owner, *number),
        Event::Polled { now } => make_ready(memory, queued, *now)?,
        _ => {}
    }
    Ok(())
}

/// Whether the owner's packet of this number is queued.
pub fn has_queued(queued: &Listed<Queued>, owner: Owner, number: u64) -> bool
    ensures { result ≡ list_any (is_queued owner number) queued.now }
{
    queued.as_slice().iter().any(|entry| entry.owner.is_same(owner)
        && u64::from(entry.number) == number)
}

fn is_reply(entry: &Queued) -> bool
    ensures { result ≡ is_reply entry.now.owner }
{
    match entry.owner {
        Owner::Reply { .. } => true,
        Owner::Ask { .. } | Owner::Control => false,
    }
}

/// How many replies are queued.
pub fn count_replies(queued: &Listed<Queued>) -> usize
    ensures { result ≡ replies queued.now }
{
    queued
        .as_slice()
        .iter()
        .filter(|entry| is_reply(entry))
        .count()
}
