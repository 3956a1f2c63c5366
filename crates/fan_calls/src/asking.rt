//! A call that asks a fan's bytes.
ghost use Rattle.std.specs.Prelude.{◌≡◌, ◌≤◌, ◌↔◌, None, IfOk, OnErr, length};
ghost use Rattle.std.specs.List.{find};
ghost use Rattle.node_steps.specs.Asks.{refusal_of};
ghost use Rattle.node_steps.specs.Notes.{Makes};
ghost use Rattle.endpoint_loop.specs.Endpoints.{Leaves};
ghost use Rattle.endpoint_loop.specs.Stands.{GoesOn};
ghost use Rattle.memory_count.specs.Faults.{HasCause, HasRisenBy};
ghost use Rattle.message_buffer.specs.Buffer.{bytes_of, capacity_of};
ghost use Rattle.rpc_base.specs.declared.limits.TheConstants.{MOST_CAPACITY};
ghost use Rattle.rpc_laws.specs.Groups.{Asks, state_of};
ghost use Rattle.rpc_laws.specs.Sessions.{is_client};
ghost use Rattle.fan_buffer.specs.Fans.{fan_bytes};
ghost use Rattle.fan_buffer.specs.Readings.{IsReadingOf, message_shown};
ghost use Rattle.fan_calls.specs.Asking.{HandsInBytes, IsGone, IsFanAskedAs, WhereAsked};
ghost use Rattle.fan_calls.specs.Asking.{WhereSilent, lacks};

use endpoint_loop::{AskError, Endpoint};
use fan_buffer::{Fan, Reading};
use memory_count::{Memory, NoMemory};
use message_buffer::{MOST_CAPACITY, MsgBuf};
use rpc_base::{CallNo, SessionNo, SessionState};
use rpc_outside::{Recorder, Service};
use std::error::Error;
use std::fmt;
use worker_crew::Workers;

/// Why a call that asks a fan's bytes is refused.
#[derive(Clone, Copy, Debug, PartialEq, Eq)]
pub enum FanError {
    /// The fan's buffer was taken.
    Gone,
    /// The fan has more than 1,048,576 bytes.
    TooLarge { len: u32 },
    /// The session isn't connected.
    NotConnected { state: SessionState },
    /// There was no memory for the call, or for the two buffers that it is asked with.
    NoMemory,
}

impl fmt::Display for FanError {
    fn fmt<W: fmt::Write>(&self, f: &mut fmt::Formatter<W>) -> fmt::Result {
        match self {
            FanError::Gone => f.write_str("the fan's buffer was taken"),
            FanError::TooLarge { .. } => f.write_str("the request is too large"),
            FanError::NotConnected { .. } => f.write_str("the session isn't connected"),
            FanError::NoMemory => write!(f, "{}", NoMemory),
        }
    }
}

impl Error for FanError {}

/// A buffer with these bytes.
fn buffer_of(memory: &mut Memory, bytes: &[u8]) -> Result<MsgBuf, NoMemory>
    requires { length bytes.now ≤ MOST_CAPACITY }
    ensures bytes { IfOk result (λ b. bytes_of b ≡ bytes.now) }
    ensures len { IfOk result (λ b. b.len ≡ length bytes.now) }
    ensures cause { HasCause memory.old memory.new result }
{
    let len = bytes.len() as u32;
    let mut buf = MsgBuf::new(memory, len)?;
    buf.set_len(len);
    buf.write(0, bytes);
    Ok(buf)
}

/// Asks a call with the fan's bytes on a client session, by a right to read them. The call is asked
/// with a copy of the bytes and a buffer of `room` bytes for the answer, and both come back at its
/// end. `Gone` comes exactly where the right shows that the buffer was taken. `TooLarge` and
/// `NotConnected` come as at `Endpoint::ask`, and are noted, except where there is no memory for
/// the two buffers. `Gone` and `NoMemory` are noted nowhere.
#[tactic(auto, using(crate::proofs::AskLemmas::goes_silently, crate::proofs::AskLemmas::hands_in))]
pub fn ask_fan<V: Service, W: Workers, R: Recorder>(
    memory: &mut Memory,
    ep: &mut Endpoint<V, W>,
    session: SessionNo,
    req_type: u8,
    fan: &Fan,
    reading: &Reading<'_>,
    room: u32,
    tag: u64,
    rec: &mut R,
) -> Result<CallNo, FanError>
    requires reading { IsReadingOf fan.now reading.now }
    requires room { room ≤ MOST_CAPACITY }
    ensures gone { IsGone result ↔ (message_shown reading.now ≡ None) }
    ensures asked { IsFanAskedAs (refusal_of (length (fan_bytes fan.now)) (state_of
        (find (is_client session) ep.old.timed.lists.clients))) ep.old.timed.lists.asked result }
    ensures asks { WhereAsked result (Makes R.log (Asks session req_type
        (fan_bytes fan.now) room) ep.old.timed ep.new.timed rec.old rec.new) }
    ensures leaves { Leaves ep.old ep.new }
    ensures goes_on { GoesOn R.log V.Service W.Workers ep.old ep.new rec.old rec.new }
    ensures unchanged { OnErr result (ep.new ≡ ep.old) }
    ensures silent { WhereSilent result (rec.new ≡ rec.old) }
    ensures handed { IfOk result (λ call. HandsInBytes (fan_bytes fan.now) session call tag room
        ep.old.handed ep.new.handed) }
    ensures cause { HasRisenBy (lacks result) memory.old memory.new }
{
    let Some(bytes) = fan.bytes(reading) else {
        return Err(FanError::Gone);
    };
    let Ok(req) = buffer_of(memory, bytes) else {
        return Err(FanError::NoMemory);
    };
    let Ok(resp) = MsgBuf::new(memory, room) else {
        return Err(FanError::NoMemory);
    };
    match ep.ask(memory, session, req_type, req, resp, tag, rec) {
        Ok(call) => Ok(call),
        Err(refused) => Err(match refused.why {
            AskError::TooLarge { len } => FanError::TooLarge { len },
            AskError::NotConnected { state } => FanError::NotConnected { state },
            AskError::NoMemory => FanError::NoMemory,
        }),
    }
}
