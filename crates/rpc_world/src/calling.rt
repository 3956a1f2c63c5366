//! `call`: a node is asked a call.
ghost use Rattle.std.specs.Prelude.{◌≡◌, ◌≢◌, ◌<◌, ◌≤◌, ◌%◌, false, true, length, map, IfErr, IfOk};
ghost use Rattle.std.specs.Prelude.{OnOk};
ghost use Rattle.std.specs.List.{range_with_len};
ghost use Rattle.node_steps.specs.Lacks.{lacks_asked};
ghost use Rattle.memory_count.specs.Faults.{HasReason};
ghost use Rattle.message_buffer.specs.Buffer.{bytes_of};
ghost use Rattle.rpc_laws.specs.Groups.{Asks};
ghost use Rattle.script_grammar.specs.Conditions.{IsAskInRange};
ghost use Rattle.sim_script.specs.FollowsScript.{AtNode, ask_bytes};
ghost use Rattle.rpc_world.specs.Performed.{Performed};
ghost use Rattle.rpc_world.specs.Before.{IsNumbered};

use crate::landing::land;
use crate::running::Running;
use endpoint_loop::{AskError, Refused};
use memory_count::{Memory, NoMemory};
use message_buffer::{MOST_CAPACITY, MsgBuf};
use rpc_base::{CallNo, MOST_MESSAGE_BYTES, NodeId, Octets, SessionNo};
use rpc_outside::MemRecorder;
use script_grammar::MOST_ASK_BYTES;
use sim_script::AskBytes;
use std::alloc::{AllocError, Global};

fn count_up(alloc: Global, n: u32) -> Result<Vec<u8>, AllocError>
    ensures { IfOk result (λ v. v.items ≡ map (λ j. j % 256) (range_with_len 0 n)) }
{
    (0..n).map(|j| (j % 256) as u8).collect(alloc)
}

fn counted(memory: &mut Memory, n: u32) -> Result<Octets, NoMemory>
    ensures counted { IfOk result (λ o. o ≡ map (λ j. j % 256) (range_with_len 0 n)) }
    ensures cause { HasReason memory.old memory.new result }
{
    let made = count_up(memory.alloc(), n);
    let bytes = memory.of(made)?;
    Ok(Octets::from(bytes))
}

fn bytes_to_ask(memory: &mut Memory, ask: &AskBytes) -> Result<Octets, NoMemory>
    ensures bytes { IfOk result (λ o. o ≡ ask_bytes ask.now) }
    ensures cause { HasReason memory.old memory.new result }
{
    match ask {
        AskBytes::Given(bytes) => Ok(Octets::from(memory.copied(bytes.bytes())?)),
        AskBytes::Count(n) => counted(memory, *n),
    }
}

// A buffer with these bytes.
fn buffer_of(memory: &mut Memory, bytes: &[u8]) -> Result<MsgBuf, NoMemory>
    requires { length bytes.now ≤ MOST_CAPACITY }
    ensures bytes { IfOk result (λ b. bytes_of b ≡ bytes.now) }
    ensures cause { HasReason memory.old memory.new result }
{
    let len = bytes.len() as u32;
    let mut buf = MsgBuf::new(memory, len)?;
    buf.set_len(len);
    buf.write(0, bytes);
    Ok(buf)
}

// Whether a call was refused for want of memory.
fn wants_memory(asked: &Result<CallNo, Refused>) -> bool
    ensures other { IfErr asked.now (λ r. result ≡ false → r.why ≢ AskError.NoMemory) }
    ensures lacks { result ≡ true → lacks_asked asked.now ≡ 1 }
{
    match asked {
        Ok(_) => false,
        Err(refused) => refused.why == AskError::NoMemory,
    }
}

fn ask_on(
    memory: &mut Memory,
    stage: &mut Running,
    rec: &mut MemRecorder,
    node: NodeId,
    session: SessionNo,
    req_type: u8,
    ask: &[u8],
    room: u32,
) -> Result<(), NoMemory>
    requires node { node < length stage.old.ends }
    requires ask { length ask.now ≤ MOST_ASK_BYTES }
    requires room { room ≤ MOST_MESSAGE_BYTES }
    requires numbered { IsNumbered stage.old }
    ensures performed { OnOk result
        (Performed (AtNode (Asks session req_type ask.now room) node)
        stage.old stage.new rec.old.facts.items rec.new.facts.items) }
    ensures cause { HasReason memory.old memory.new result }
{
    let req = buffer_of(memory, ask)?;
    let resp = MsgBuf::new(memory, room)?;
    let before = rec.facts().len();
    let asking = stage.nodes.at_mut(usize::from(node.0));
    let asked = asking.ask(memory, session, req_type, req, resp, 0, rec);
    if wants_memory(&asked) {
        return Err(NoMemory);
    }
    land(memory, stage, rec, before)?;
    Ok(())
}

/// `call`: asks the node's session a call of these bytes, with that room for its answer.
pub fn call_on(
    memory: &mut Memory,
    stage: &mut Running,
    rec: &mut MemRecorder,
    node: NodeId,
    session: SessionNo,
    req_type: u8,
    ask: &AskBytes,
    room: u32,
) -> Result<(), NoMemory>
    requires node { node < length stage.old.ends }
    requires ask { IsAskInRange ask.now }
    requires room { room ≤ MOST_MESSAGE_BYTES }
    requires numbered { IsNumbered stage.old }
    ensures performed { OnOk result
        (Performed (AtNode (Asks session req_type (ask_bytes ask.now) room) node)
        stage.old stage.new rec.old.facts.items rec.new.facts.items) }
    ensures cause { HasReason memory.old memory.new result }
{
    let bytes = bytes_to_ask(memory, ask)?;
    ask_on(
        memory,
        stage,
        rec,
        node,
        session,
        req_type,
        bytes.bytes(),
        room,
    )?;
    Ok(())
}
