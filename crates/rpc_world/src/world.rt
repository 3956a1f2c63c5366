//! The world that runs a script.
ghost use Rattle.std.specs.Prelude.{◌≡◌, ◌≢◌, List, [], IfOk};
ghost use Rattle.memory_count.specs.Faults.{HasReason};
ghost use Rattle.rpc_base.specs.declared.fact.Fact.{Fact};
ghost use Rattle.ring_laws.specs.PairsOnce.{PairsOnce};
ghost use Rattle.lawful_history.specs.Lawful.{Lawful};
ghost use Rattle.rpc_world.specs.Standing.{AllStand, StandsAt};
ghost use Rattle.script_grammar.specs.Conditions.{IsScript};
ghost use Rattle.sim_script.specs.FollowsScript.{Follows};
ghost use Rattle.stall_laws.specs.NoStall.{NoStall};
ghost use Rattle.world_laws.specs.Laws.{EndTells};
ghost use Rattle.world_laws.specs.NodeFacts.{facts_of};

use crate::command::execute;
use crate::running::Running;
use endpoint_loop::Endpoint;
use memory_count::{Memory, NoMemory};
use rpc_base::{Listed, NodeId};
use rpc_laws::History;
use rpc_outside::{MemRecorder, PlainDuty, PlainService};
use sim_script::Script;
use std::marker::Model;
use worker_crew::LocalWorkers;

/// A script that was run: its history, and its endpoints as it left them. Contracts see the
/// history.
#[derive(Drop)]
pub struct World {
    history: History,
    nodes: Listed<Endpoint<PlainService, LocalWorkers<PlainDuty>>>,
}

impl Model for World {
    ghost use Rattle.rpc_base.specs.declared.fact.Fact.{Fact};
    ghost use Rattle.rpc_world.specs.Standing.{AllStand};
    ghost use Rattle.std.specs.Prelude.{List};

    ghost Value = { List Fact };

    ghost view = { λ w. w.history };

    ghost invariant = { λ w. AllStand w.history w.nodes };
}

impl World {
    /// Runs a script: its nodes over one network. `NoMemory` comes only where memory for the
    /// history or the tables was refused.
    pub fn run(memory: &mut Memory, script: &Script) -> Result<World, NoMemory>
        ensures follows { IfOk result (λ w. Follows script.now w) }
        // No other history follows the script.
        ensures one { IfOk result (λ w. (h : List Fact) → Follows script.now h → h ≡ w) }
        ensures lawful { IfOk result (λ w. Lawful w) }
        // Before a datagram was repeated, or a call was rolled back.
        ensures stands_once { IfOk result (λ w. PairsOnce w) }
        // At the end of each command.
        ensures no_stall { IfOk result (λ w. NoStall script.now w) }
        // Of each node at the end.
        ensures requests { IfOk result (λ w. EndTells script.now w) }
        ensures cause { HasReason memory.old memory.new result }
    {
        let world = World::play(memory, script)?;
        Ok(world)
    }

    // Does one command after the other.
    fn play(memory: &mut Memory, script: &Script) -> Result<World, NoMemory>
        ensures follows { IfOk result (λ w. Follows script.now w) }
        ensures script { IfOk result (λ w. IsScript script.now) }
        ensures cause { HasReason memory.old memory.new result }
    {
        let mut rec = MemRecorder::new(memory.alloc());
        let mut stage = Running::new(memory.alloc());
        for line in script.lines() {
            execute(memory, &mut stage, &mut rec, &line.command)?;
        }
        let Running { nodes, .. } = stage;
        Ok(World {
            history: History::of(rec.into_facts()),
            nodes,
        })
    }

    /// What happened, in order.
    pub fn history(&self) -> &History
        ensures { result.now ≡ self.now }
    {
        &self.history
    }

    /// The endpoint of node `n` as the script left it. It stands for the facts of that node, of
    /// which a node that the script declares has some.
    pub fn node(&self, n: NodeId) -> &Endpoint<PlainService, LocalWorkers<PlainDuty>>
        requires declared { facts_of n self.now ≢ [] }
        ensures stands { StandsAt n self.now result.now }
    {
        self.nodes.at(usize::from(n.0))
    }
}
