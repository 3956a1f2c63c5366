//! Whether each node's facts are its Made and a run.
ghost use Rattle.std.specs.Prelude.{◌≡◌, ◌++◌, ◌∷◌, [], ◌↔◌, List, IsTrue, OnOk, IfOk, false};
ghost use Rattle.std.specs.Prelude.{length};
ghost use Rattle.front_laws.specs.Whole.{is_open};
ghost use Rattle.history_audit.specs.declared.numbers.TheConstants.{NODES};
ghost use Rattle.history_audit.specs.Nodes.{KeepsEach};
ghost use Rattle.memory_count.specs.Faults.{HasCause};
ghost use Rattle.rpc_base.specs.declared.fact.Fact.{Fact};
ghost use Rattle.world_laws.specs.NodeFacts.{facts_of, Runs};

use crate::numbers::NODES;
use memory_count::{Memory, NoMemory};
use node_audit::NodeAudit;
use rpc_base::{Fact, Listed, NodeId, Who};

/// What is kept of each node's facts, by its number.
#[derive(Drop)]
pub struct Nodes {
    nodes: Listed<NodeAudit>,
    ghost many: { length nodes ≡ NODES },
}

impl Nodes {
    /// Before any fact. `NoMemory` comes only where memory for the nodes was refused.
    pub fn new(memory: &mut Memory) -> Result<Nodes, NoMemory>
        ensures none { IfOk result (λ n. KeepsEach n.nodes []) }
        ensures cause { HasCause memory.old memory.new result }
    {
        let mut nodes = Vec::new(memory.alloc());
        for number in 0..NODES {
            memory.push(&mut nodes, NodeAudit::new(NodeId(number as u8)))?;
        }
        Ok(Nodes {
            nodes: Listed::from(nodes),
        })
    }

    /// Takes note of the next fact. `NoMemory` comes only where memory for what it changes was
    /// refused.
    pub fn note(&mut self, memory: &mut Memory, fact: &Fact) -> Result<(), NoMemory>
        ensures noted { OnOk result ((h : List Fact) → KeepsEach self.old.nodes h
            → KeepsEach self.new.nodes (h ++ fact.now ∷ [])) }
        ensures cause { HasCause memory.old memory.new result }
    {
        match fact.who {
            Who::Node(node) => {
                let place = usize::from(node.0);
                self.nodes.at_mut(place).note(memory, fact)?;
                Ok(())
            }
            Who::Net => Ok(()),
        }
    }

    /// Whether a node's facts are its Made and a run, where it isn't in the midst of a poll.
    pub fn is_run(&self, node: NodeId) -> bool
        ensures { (h : List Fact) → KeepsEach self.now.nodes h → is_open node false h ≡ false
            → IsTrue result ↔ Runs node (facts_of node h) }
    {
        self.nodes.at(usize::from(node.0)).is_run()
    }
}
