//! What each command of a script does to the world.
ghost use Rattle.std.specs.Prelude.{◌<◌, ◌+◌, ◌^◌, length, OnOk};
ghost use Rattle.memory_count.specs.Faults.{HasReason};
ghost use Rattle.rpc_base.specs.declared.event.Event.{Event};
ghost use Rattle.sim_script.specs.FollowsScript.{Does, OfNet, Ticks, or_missed};
ghost use Rattle.rpc_world.specs.Performed.{Performed};
ghost use Rattle.rpc_world.specs.Before.{AllCanRestart, IsNumbered, Names};
ghost use Rattle.script_grammar.specs.Conditions.{IsInRange};

use crate::calling::call_on;
use crate::connecting::{connect_on, disconnect_on};
use crate::making::make_node;
use crate::network::{note_of_net, perform_net};
use crate::pairing::pair;
use crate::rating::rate_on;
use crate::restarting::restart_node;
use crate::running::Running;
use crate::settling::settle;
use crate::stepping::{arrive, poll_node};
use crate::working::work_job;
use memory_count::{Memory, NoMemory};
use rpc_base::Event;
use rpc_outside::MemRecorder;
use script_grammar::MOST_TICK;
use sim_script::Command;

fn lose(
    memory: &mut Memory,
    stage: &mut Running,
    rec: &mut MemRecorder,
    copy: u32,
) -> Result<(), NoMemory>
    ensures performed { OnOk result
        (Performed (OfNet (or_missed stage.old.flight copy (Event.Lost copy)))
        stage.old stage.new rec.old.facts.items rec.new.facts.items) }
    ensures cause { HasReason memory.old memory.new result }
{
    if (copy as usize) < stage.flight.len() {
        perform_net(memory, stage, rec, &Event::Lost { copy })
    } else {
        perform_net(memory, stage, rec, &Event::Missed { number: copy })
    }
}

fn repeat(
    memory: &mut Memory,
    stage: &mut Running,
    rec: &mut MemRecorder,
    copy: u32,
) -> Result<(), NoMemory>
    ensures performed { OnOk result
        (Performed (OfNet (or_missed stage.old.flight copy (Event.Repeated copy)))
        stage.old stage.new rec.old.facts.items rec.new.facts.items) }
    ensures cause { HasReason memory.old memory.new result }
{
    if (copy as usize) < stage.flight.len() {
        perform_net(memory, stage, rec, &Event::Repeated { copy })
    } else {
        perform_net(memory, stage, rec, &Event::Missed { number: copy })
    }
}

fn tick(
    memory: &mut Memory,
    stage: &mut Running,
    rec: &mut MemRecorder,
    by: u32,
) -> Result<(), NoMemory>
    requires clock { stage.old.clock + by < 2 ^ 64 }
    ensures performed { OnOk result
        (Performed (Ticks by) stage.old stage.new rec.old.facts.items rec.new.facts.items) }
    ensures cause { HasReason memory.old memory.new result }
{
    stage.clock += u64::from(by);
    note_of_net(memory, rec, &Event::Ticked { by })?;
    Ok(())
}

/// Does what a command says.
pub fn execute(
    memory: &mut Memory,
    stage: &mut Running,
    rec: &mut MemRecorder,
    command: &Command,
) -> Result<(), NoMemory>
    requires ranges { IsInRange command.now }
    requires names { Names (length stage.old.ends) command.now }
    requires numbered { IsNumbered stage.old }
    requires clock { stage.old.clock + MOST_TICK < 2 ^ 64 }
    requires anew { AllCanRestart stage.old }
    ensures performed { OnOk result
        (Performed (Does command.now) stage.old stage.new rec.old.facts.items rec.new.facts.items) }
    ensures cause { HasReason memory.old memory.new result }
{
    match command {
        Command::Node { ring } => make_node(memory, stage, rec, *ring),
        Command::Pair { a, b, credits } => pair(memory, stage, rec, *a, *b, *credits),
        Command::Connect { a, b, credits } => connect_on(memory, stage, rec, *a, *b, *credits),
        Command::Disconnect { node, session } => disconnect_on(memory, stage, rec, *node, *session),
        Command::Rate {
            node,
            session,
            rate,
        } => rate_on(memory, stage, rec, *node, *session, *rate),
        Command::Call {
            node,
            session,
            req_type,
            ask,
            room,
        } => { call_on(memory, stage, rec, *node, *session, *req_type, ask, *room) }
        Command::Poll { node } => poll_node(memory, stage, rec, *node),
        Command::Arrive { copy } => arrive(memory, stage, rec, *copy),
        Command::Lose { copy } => lose(memory, stage, rec, *copy),
        Command::Repeat { copy } => repeat(memory, stage, rec, *copy),
        Command::Tick { by } => tick(memory, stage, rec, *by),
        Command::Work { node, job } => work_job(memory, stage, rec, *node, *job),
        Command::Settle { rounds } => settle(memory, stage, rec, *rounds),
        Command::Restart { node } => restart_node(memory, stage, rec, *node),
    }
}
