//! "The server rule" of docs/PROTOCOL.md, over the lists of a node.
ghost use Rattle.std.specs.Prelude.{◌≡◌, Some, false, option_map};
ghost use Rattle.std.specs.List.{find};
ghost use Rattle.rpc_laws.specs.Requests.{in_slot_of, is_server};
ghost use Rattle.packet_header.specs.Parts.{packet_count};
ghost use Rattle.rpc_laws.specs.Jobs.{are_full};
ghost use Rattle.rpc_laws.specs.ServerTable.{is_mismatch, is_past_end, is_worked_on, makes_job};
ghost use Rattle.rpc_laws.specs.ServerTable.{new_row, newest_of, own_row, repeated_row};
ghost use Rattle.rpc_laws.specs.ServerTable.{server_row, slot_row};
ghost use Rattle.rpc_laws.specs.Service.{is_handled, is_mode_background};

use node_tables::{place_in_slot, place_of_server};
use packet_header::{MessageHeader, count};
use rpc_base::{DropReason, Listed, MOST_GIVEN, PART_BYTES, Peer};
use rpc_laws::{Jobs, Served, Server, ServerRow};
use rpc_outside::Mode;

// Whether a type is Background.
fn is_background(mode: Mode) -> bool
    ensures { result ≡ is_mode_background mode }
{
    match mode {
        Mode::Background => true,
        Mode::Inline | Mode::Unserved => false,
    }
}

// Whether requests of a mode are served.
fn is_handled(mode: Mode) -> bool
    ensures { result ≡ is_handled mode }
{
    match mode {
        Mode::Background | Mode::Inline => true,
        Mode::Unserved => false,
    }
}

/// Whether a packet makes a background job.
pub fn makes_job(mode: Mode, head: &MessageHeader) -> bool
    ensures { result ≡ makes_job mode head.now }
{
    head.is_last() && is_background(mode)
}

/// Whether the jobs of a node are full.
pub fn are_full(jobs: &Jobs) -> bool
    ensures { result ≡ are_full jobs.now }
{
    jobs.limit as usize <= jobs.out.len() || MOST_GIVEN <= jobs.given
}

// The row of a number above each before it in its slot.
fn new_row(mode: Mode, working: bool, full: bool, lacks: bool, head: &MessageHeader) -> ServerRow
    ensures { result ≡ new_row mode working full lacks head.now }
{
    if head.kind.is_rfr() || head.number != 0 {
        return ServerRow::Drops(DropReason::NotFirst);
    }
    if working {
        return ServerRow::Drops(DropReason::Working);
    }
    if !is_handled(mode) {
        return ServerRow::Drops(DropReason::Unserved);
    }
    if makes_job(mode, head) && full {
        return ServerRow::Drops(DropReason::JobsFull);
    }
    if lacks {
        return ServerRow::Drops(DropReason::NoMemory);
    }
    ServerRow::Begins
}

// A part of another message, or a request for a part of the answer before its first one.
fn is_mismatch(served: &Served, head: &MessageHeader) -> bool
    ensures { result ≡ is_mismatch (newest_of served.now) head.now }
{
    if head.kind.is_rfr() {
        return u32::from(head.number) < count(served.size);
    }
    !(head.req_type == served.req_type && head.size == served.size)
}

// A packet that was taken before.
fn repeated_row(served: &Served, number: u16) -> ServerRow
    ensures { result ≡ repeated_row (newest_of served.now) number }
{
    if u32::from(number) + 1 == count(served.size) && served.working {
        return ServerRow::Drops(DropReason::Working);
    }
    ServerRow::Repeats
}

/// How many packets carry a message of so many bytes, which may be more than a message has.
pub fn parts_of(len: usize) -> u64
    ensures { result ≡ packet_count len }
{
    (len as u64).div_ceil(u64::from(PART_BYTES)).max(1)
}

// Whether an RFR asks for a part that isn't there.
fn is_past_end(served: &Served, number: u16) -> bool
    ensures { result ≡ is_past_end served.now.size (newest_of served.now).answer number }
{
    match &served.answer {
        None => true,
        Some(answer) => {
            let parts = u128::from(parts_of(answer.len()));
            u128::from(count(served.size)) + parts <= u128::from(number) + 1
        }
    }
}

// The row of the number that stands in its slot.
fn own_row(mode: Mode, full: bool, lacks: bool, served: &Served, head: &MessageHeader) -> ServerRow
    ensures { result ≡ own_row mode full lacks (newest_of served.now) head.now }
{
    if is_mismatch(served, head) {
        return ServerRow::Drops(DropReason::Mismatch);
    }
    if served.taken < u64::from(head.number) {
        return ServerRow::Drops(DropReason::Ahead);
    }
    if u64::from(head.number) < served.taken {
        return repeated_row(served, head.number);
    }
    if head.kind.is_rfr() && is_past_end(served, head.number) {
        return ServerRow::Drops(DropReason::Beyond);
    }
    if makes_job(mode, head) && full {
        return ServerRow::Drops(DropReason::JobsFull);
    }
    if lacks && head.is_last() {
        return ServerRow::Drops(DropReason::NoMemory);
    }
    ServerRow::Takes
}

// The row of a packet by the newest request of its slot.
fn newest_row(
    mode: Mode,
    full: bool,
    lacks: bool,
    served: &Served,
    head: &MessageHeader,
) -> ServerRow
    ensures { result ≡ slot_row mode full lacks (Some served.now) head.now }
{
    if head.request.get() < served.number.get() {
        return ServerRow::Drops(DropReason::Old);
    }
    if served.number.get() < head.request.get() {
        return new_row(mode, served.working, full, lacks, head);
    }
    own_row(mode, full, lacks, served, head)
}

fn slot_row(
    mode: Mode,
    full: bool,
    lacks: bool,
    slots: &Listed<Served>,
    head: &MessageHeader,
) -> ServerRow
    ensures { result ≡ slot_row mode full lacks (find (in_slot_of head.now.request) slots.now)
        head.now }
{
    let Some(place) = place_in_slot(slots, head.request) else {
        return new_row(mode, false, full, lacks, head);
    };
    newest_row(mode, full, lacks, slots.at(place), head)
}

fn session_row(
    mode: Mode,
    full: bool,
    lacks: bool,
    server: &Server,
    peer: Peer,
    head: &MessageHeader,
) -> ServerRow
    ensures { result ≡ server_row mode full lacks (Some server.now) peer head.now }
{
    if server.way.peer.0 != peer.0 {
        return ServerRow::Drops(DropReason::WrongPeer);
    }
    slot_row(mode, full, lacks, &server.slots, head)
}

/// What the server rule says of a Request or RFR of this peer. `mode` is that of its type, `full`
/// tells whether the node's jobs are full, and `lacks` whether memory for a buffer is wanting.
pub fn server_row(
    mode: Mode,
    full: bool,
    lacks: bool,
    servers: &Listed<Server>,
    peer: Peer,
    head: &MessageHeader,
) -> ServerRow
    ensures { result ≡ server_row mode full lacks (find (is_server head.now.session) servers.now)
        peer head.now }
{
    let Some(place) = place_of_server(servers, head.session) else {
        return ServerRow::Drops(DropReason::NoSession);
    };
    session_row(mode, full, lacks, servers.at(place), peer, head)
}
