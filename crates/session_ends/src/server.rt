//! Server sessions by their numbers, and the replies of one of them.
ghost use Rattle.std.specs.Prelude.{◌≡◌, ◌<◌, length, slice_get, vec_capacity, IfSome};
ghost use Rattle.std.specs.List.{AllByRecursion, position};
ghost use Rattle.client_core.specs.KeepsPool.{IsHeld};
ghost use Rattle.packet_header.specs.Header.{AreBytes};
ghost use Rattle.session_ends.specs.Effects.{ServerEnds, ServerGone, ServerSpells};
ghost use Rattle.packet_rings.specs.Entries.{listed_entry, option_is};
ghost use Rattle.session_ends.specs.Sides.{IsReplyThere, ServerKept, Rises, has_number, numbers_in};
ghost use Rattle.server_core.specs.Flushing.{replies_of};
ghost use Rattle.server_core.specs.Serving.{IsUnheld};

use buffer_pool::BufferPool;
use packet_header::Life;
use packet_rings::Entry;
use rpc_base::{HEAD_BYTES, Peer, SessionNo};
use server_core::{ServerSession, Step};

/// What never changes of a server session.
#[derive(Clone, Copy, Debug)]
pub struct ServerEnd {
    pub session: SessionNo,
    pub peer: Peer,
    /// Its number at the client.
    pub client: SessionNo,
    /// The client's life.
    pub life: Life,
    pub credits: u16,
}

/// Where the server session with this number stands. Numbers rise, and as long as no session is
/// over each stands at the place of its number.
pub fn place_of(servers: &Vec<ServerSession>, session: SessionNo) -> Option<usize>
    requires rises { Rises (numbers_in servers.now.items) }
    ensures { result ≡ position (has_number session) servers.now.items }
{
    let own = usize::from(session.0);
    if is_at(servers, own, session) {
        return Some(own);
    }
    let place = servers.partition_point(|server| server.session().0 < session.0);
    if is_at(servers, place, session) {
        return Some(place);
    }
    None
}

// Whether the server session at a place has this number.
fn is_at(servers: &Vec<ServerSession>, place: usize, session: SessionNo) -> bool
    ensures { result ≡ option_is (has_number session) (slice_get servers.now.items place) }
{
    if place >= servers.len() {
        return false;
    }
    servers[place].session().0 == session.0
}

/// Writes the header of a reply, and lends its body.
pub fn reply_at<'a>(
    servers: &Vec<ServerSession>,
    session: SessionNo,
    pool: &'a BufferPool,
    entry: &Entry,
    head: &mut [u8; HEAD_BYTES],
) -> &'a [u8]
    requires there { IsReplyThere session entry.now pool.now servers.now.items }
    ensures spells { ServerSpells session pool.now entry.now head.new result.now
        servers.now.items }
    ensures bytes { AreBytes head.new }
{
    let Some(place) = place_of(servers, session) else {
        unreachable!()
    };
    servers[place].packet(pool, entry, head)
}

/// A reply was sent.
pub fn reply_sent_at(
    servers: &mut Vec<ServerSession>,
    session: SessionNo,
    pool: &mut BufferPool,
    entry: &Entry,
)
    requires there { IsReplyThere session entry.now pool.old servers.old.items }
    requires held { IsHeld pool.old entry.now.place }
    ensures gone { ServerGone session entry.now servers.old.items servers.new.items pool.old
        pool.new }
    ensures room { vec_capacity servers.new ≡ vec_capacity servers.old }
{
    let Some(place) = place_of(servers, session) else {
        unreachable!()
    };
    servers[place].sent(pool, entry);
}

/// A reply was taken out unsent.
pub fn reply_flushed_at(
    servers: &mut Vec<ServerSession>,
    session: SessionNo,
    pool: &mut BufferPool,
    entry: &Entry,
)
    requires there { IsReplyThere session entry.now pool.old servers.old.items }
    requires held { IsHeld pool.old entry.now.place }
    ensures gone { ServerGone session entry.now servers.old.items servers.new.items pool.old
        pool.new }
    ensures room { vec_capacity servers.new ≡ vec_capacity servers.old }
{
    let Some(place) = place_of(servers, session) else {
        unreachable!()
    };
    servers[place].flushed(pool, entry);
}

/// The server session at place `i` ends, of which no reply is queued: its buffers leave the pool.
pub fn end_at(servers: &mut Vec<ServerSession>, i: usize, pool: &mut BufferPool)
    requires known { i < length servers.old.items }
    requires keeps { AllByRecursion (ServerKept pool.old) servers.old.items }
    requires unheld { IfSome (slice_get servers.old.items i)
        (λ v. AllByRecursion (IsUnheld pool.old) v.slots) }
    ensures ends { ServerEnds i servers.old.items servers.new.items pool.old pool.new }
    ensures room { vec_capacity servers.new ≡ vec_capacity servers.old }
{
    let server = servers.remove(i);
    server.finish(pool);
}

/// The reply of a step, if it has one.
pub fn reply_of(step: &Step) -> Option<Entry>
    ensures { replies_of step.now ≡ listed_entry result }
{
    match step {
        Step::Took { reply } => *reply,
        Step::Again { reply } => Some(*reply),
        Step::Ran { reply } => Some(*reply),
        Step::Give(_) => None,
        Step::Dropped(_) => None,
    }
}
