//! `restart`: a node is made anew.
ghost use Rattle.std.specs.Prelude.{◌≡◌, ◌+◌, ◌<◌, length, OnOk};
ghost use Rattle.memory_count.specs.Faults.{HasReason};
ghost use Rattle.packet_header.specs.Ranges.{Within, lives};
ghost use Rattle.sim_script.specs.FollowsScript.{Restarts};
ghost use Rattle.rpc_world.specs.Before.{AllCanRestart, IsNumbered};
ghost use Rattle.rpc_world.specs.Performed.{Performed};

use crate::landing::land;
use crate::making::new_end;
use crate::running::Running;
use memory_count::{Memory, NoMemory};
use packet_header::Life;
use rpc_base::{Event, NodeId, Who};
use rpc_outside::{MemRecorder, Recorder};

// The life behind this one.
fn life_behind(life: Life) -> Life
    requires { Within lives (life + 1) }
    ensures { result ≡ life + 1 }
{
    Life(life.0 + 1)
}

/// `restart A`: makes the node's endpoint anew, with its limits and in its next life, over new
/// workers and with a new service. The old one is let go, with all that it has.
pub fn restart_node(
    memory: &mut Memory,
    stage: &mut Running,
    rec: &mut MemRecorder,
    node: NodeId,
) -> Result<(), NoMemory>
    requires node { node < length stage.old.ends }
    requires numbered { IsNumbered stage.old }
    requires anew { AllCanRestart stage.old }
    ensures performed { OnOk result
        (Performed (Restarts node) stage.old stage.new rec.old.facts.items rec.new.facts.items) }
    ensures cause { HasReason memory.old memory.new result }
{
    let before = rec.facts().len();
    let place = usize::from(node.0);
    let old = stage.nodes.at(place);
    let life = life_behind(old.life());
    let limits = old.limits();
    rec.note(Who::Node(node), Event::Restarted { life: life.0 }, &[], &[]);
    let made = new_end(memory, node, life, limits)?;
    stage.nodes.set(place, made);
    land(memory, stage, rec, before)?;
    Ok(())
}
