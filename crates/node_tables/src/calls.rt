//! The calls of a client session, as events change them.
ghost use Rattle.std.specs.Prelude.{◌≡◌, OnOk};
ghost use Rattle.std.specs.List.{position};
ghost use Rattle.memory_count.specs.Faults.{HasCause};
ghost use Rattle.rpc_base.specs.Tables.{at_first};
ghost use Rattle.rpc_laws.specs.Calls.{begun, is_active, is_call, moved, posted_up_to};
ghost use Rattle.rpc_laws.specs.Calls.{rolled_back, sent_packet, took_reply};
ghost use Rattle.node_tables.specs.Changed.{no_progress};

use crate::counting::one_more;
use memory_count::{Memory, NoMemory};
use packet_header::MessageHeader;
use rpc_base::{CallNo, Octets, RequestNo};
use rpc_laws::{Call, Calls, Progress};

/// Whether a call is active as this request.
pub fn is_active(call: &Call, request: RequestNo) -> bool
    ensures { result ≡ is_active request call.now }
{
    match &call.progress {
        None => false,
        Some(progress) => progress.request.get() == request.get(),
    }
}

// Where it stands among those that began.
fn place_among(begun: &[Call], request: RequestNo) -> Option<usize>
    ensures { result ≡ position (is_active request) begun.now }
{
    begun.iter().position(|call| is_active(call, request))
}

/// Where the active call of a request stands.
pub fn place_of_active(calls: &Calls, request: RequestNo) -> Option<usize>
    ensures { result ≡ position (is_active request) calls.now }
{
    place_among(calls.begun(), request)
}

// How far a call has come as it begins as this request.
fn no_progress(memory: &Memory, request: RequestNo) -> Progress
    ensures { result ≡ no_progress request }
{
    Progress {
        request,
        got: 0,
        posted: 0,
        rolls: 0,
        mark: 0,
        answer: None,
        parts: Octets::from(Vec::new(memory.alloc())),
    }
}

/// The call of this number begins as this request.
pub fn begin(
    memory: &mut Memory,
    calls: &mut Calls,
    number: CallNo,
    request: RequestNo,
) -> Result<(), NoMemory>
    ensures calls { OnOk result
        (calls.new ≡ at_first (is_call number) (begun request) calls.old) }
    ensures cause { HasCause memory.old memory.new result }
{
    let progress = no_progress(memory, request);
    calls.begin(memory, number, progress)
}

// Packet `number` of a call was posted.
fn post_call(call: &mut Call, number: u16)
    ensures { call.new ≡ moved (posted_up_to number) call.old }
{
    if let Some(progress) = &mut call.progress {
        progress.posted = u64::from(number) + 1;
    }
}

/// Packet `number` of the active call of this request was posted.
pub fn post(calls: &mut Calls, request: RequestNo, number: u16)
    ensures { calls.new ≡ at_first (is_active request) (moved (posted_up_to number)) calls.old }
{
    let Some(place) = place_of_active(calls, request) else {
        return;
    };
    post_call(calls.at_mut(place), number);
}

// Packet `number` was sent.
fn send_progress(progress: &mut Progress, clock: u64, number: u16)
    ensures { progress.new ≡ sent_packet clock number progress.old }
{
    if progress.got == u64::from(number) {
        progress.mark = clock;
    }
}

fn send_call(call: &mut Call, clock: u64, number: u16)
    ensures { call.new ≡ moved (sent_packet clock number) call.old }
{
    if let Some(progress) = &mut call.progress {
        send_progress(progress, clock, number);
    }
}

/// Packet `number` of the active call of this request was sent at this clock.
pub fn send(calls: &mut Calls, clock: u64, request: RequestNo, number: u16)
    ensures { calls.new ≡ at_first (is_active request) (moved (sent_packet clock number))
        calls.old }
{
    let Some(place) = place_of_active(calls, request) else {
        return;
    };
    send_call(calls.at_mut(place), clock, number);
}

// A reply with this header and body was taken.
fn take_progress(
    memory: &mut Memory,
    progress: &mut Progress,
    clock: u64,
    head: &Option<MessageHeader>,
    body: &[u8],
) -> Result<(), NoMemory>
    ensures progress { OnOk result
        (progress.new ≡ took_reply clock head.now body.now progress.old) }
    ensures cause { HasCause memory.old memory.new result }
{
    let Some(head) = head else {
        return Ok(());
    };
    progress.got = one_more(memory, progress.got)?;
    progress.rolls = 0;
    progress.mark = clock;
    if !head.kind.is_response() {
        return Ok(());
    }
    progress.answer = Some(head.size);
    memory.of(progress.parts.append(body))
}

fn take_call(
    memory: &mut Memory,
    call: &mut Call,
    clock: u64,
    head: &Option<MessageHeader>,
    body: &[u8],
) -> Result<(), NoMemory>
    ensures call { OnOk result (call.new ≡ moved (took_reply clock head.now body.now) call.old) }
    ensures cause { HasCause memory.old memory.new result }
{
    if let Some(progress) = &mut call.progress {
        take_progress(memory, progress, clock, head, body)?;
    }
    Ok(())
}

/// A reply to the active call of this request was taken at this clock.
pub fn take(
    memory: &mut Memory,
    calls: &mut Calls,
    clock: u64,
    request: RequestNo,
    head: &Option<MessageHeader>,
    body: &[u8],
) -> Result<(), NoMemory>
    ensures calls { OnOk result (calls.new
        ≡ at_first (is_active request) (moved (took_reply clock head.now body.now))
        calls.old) }
    ensures cause { HasCause memory.old memory.new result }
{
    let Some(place) = place_of_active(calls, request) else {
        return Ok(());
    };
    take_call(memory, calls.at_mut(place), clock, head, body)?;
    Ok(())
}

// A call was rolled back to packet `got`.
fn roll_call(memory: &mut Memory, call: &mut Call, got: u16) -> Result<(), NoMemory>
    ensures call { OnOk result (call.new ≡ moved (rolled_back got) call.old) }
    ensures cause { HasCause memory.old memory.new result }
{
    if let Some(progress) = &mut call.progress {
        progress.rolls = one_more(memory, progress.rolls)?;
        progress.posted = u64::from(got);
    }
    Ok(())
}

/// The call of this number was rolled back to packet `got`.
pub fn roll(
    memory: &mut Memory,
    calls: &mut Calls,
    number: CallNo,
    got: u16,
) -> Result<(), NoMemory>
    ensures calls { OnOk result (calls.new
        ≡ at_first (is_call number) (moved (rolled_back got)) calls.old) }
    ensures cause { HasCause memory.old memory.new result }
{
    let Some(place) = calls.place_of(number) else {
        return Ok(());
    };
    if calls.at(place).progress.is_none() {
        return Ok(());
    }
    roll_call(memory, calls.at_mut(place), got)?;
    Ok(())
}
