//! Server sessions by whose other end they are. Their codes stand in rising order, so one is found
//! in few steps.
ghost use Rattle.std.specs.Prelude.{◌≡◌, ◌<◌, ◌≤◌, length, map};
ghost use Rattle.std.specs.List.{position};
ghost use Rattle.std.specs.List.Sorted.{IsNonDecreasing, IsPartitionPoint};
ghost use Rattle.server_core.specs.Shown.{way_of};
ghost use Rattle.session_ends.specs.EndOrder.{EndOrder, end_code};
ghost use Rattle.session_ends.specs.Sides.{Rises, ends_at, is_of_older, numbers_in};

use crate::server::place_of;
use packet_header::Life;
use rpc_base::{Peer, SessionNo};
use server_core::ServerSession;

/// How many numbers have 16 bits.
pub const SPAN: u128 = 65_536;

/// And 32 bits, as lives have.
pub const LIVES: u128 = 4_294_967_296;

/// The code of a server session with this peer, this life of it, this number at the client, and
/// this number here. Those of one peer have codes that follow one another, in the order of lives,
/// and so do those with one other end.
pub fn code_at(peer: Peer, life: Life, client: SessionNo, number: SessionNo) -> u128
    ensures { result ≡ end_code peer life client number }
{
    let sender = u128::from(peer.0) * LIVES + u128::from(life.0);
    (sender * SPAN + u128::from(client.0)) * SPAN + u128::from(number.0)
}

/// Where the first of these codes stands that is not below this one, and else where they end.
pub fn place_in(ends: &Vec<u128>, code: u128) -> usize
    requires rises { IsNonDecreasing ends.now.items }
    ensures within { result ≤ length ends.now.items }
    ensures parts { IsPartitionPoint (λ e. e < code) (λ e. code ≤ e) ends.now.items result }
{
    ends.partition_point(|end| *end < code)
}

/// Where the first of these sessions stands that is the other end of a client session that a peer
/// has in this life.
pub fn end_in(
    servers: &Vec<ServerSession>,
    ends: &Vec<u128>,
    peer: Peer,
    client: SessionNo,
    life: Life,
) -> Option<usize>
    requires order { EndOrder ends.now.items (map way_of servers.now.items) }
    requires rises { Rises (numbers_in servers.now.items) }
    ensures { result ≡ position (ends_at peer client life) servers.now.items }
{
    let first = code_at(peer, life, client, SessionNo(0));
    let place = place_in(ends, first);
    if place == ends.len() {
        return None;
    }
    let number = ends[place] - first;
    if number >= SPAN {
        return None;
    }
    place_of(servers, SessionNo(number as u16))
}

// Whether a server session is of an older life of a peer than this one.
fn is_of_older(server: &ServerSession, peer: Peer, life: Life) -> bool
    ensures { result ≡ is_of_older peer life server.now }
{
    server.peer().0 == peer.0 && server.life().0 < life.0
}

/// Where the first of these sessions stands that is of an older life of a peer than this one. The
/// codes tell whether there is one, so the sessions are gone through only to find it.
pub fn older_in(
    servers: &Vec<ServerSession>,
    ends: &Vec<u128>,
    peer: Peer,
    life: Life,
) -> Option<usize>
    requires order { EndOrder ends.now.items (map way_of servers.now.items) }
    ensures { result ≡ position (is_of_older peer life) servers.now.items }
{
    let place = place_in(ends, code_at(peer, Life(0), SessionNo(0), SessionNo(0)));
    let above = code_at(peer, life, SessionNo(0), SessionNo(0));
    if place == ends.len() {
        return None;
    }
    if ends[place] >= above {
        return None;
    }
    servers
        .iter()
        .position(|server| is_of_older(server, peer, life))
}
