//! Which nodes are in the midst of a poll.
ghost use Rattle.std.specs.Prelude.{ℕ, ◌≡◌, ◌==◌, ◌||◌, ◌&&◌, not, ◌∷◌, ◌++◌, [], ◌↔◌};
ghost use Rattle.std.specs.Prelude.{List, OnOk, IfSome, IfNone, IsTrue, false};
ghost use Rattle.front_laws.specs.Whole.{IsWhole, is_open};
ghost use Rattle.history_audit.specs.OpenPolls.{AreOpen, is_among};
ghost use Rattle.memory_count.specs.Faults.{HasCause};
ghost use Rattle.rpc_base.specs.declared.fact.Fact.{Fact};
ghost use Rattle.rpc_base.specs.declared.fact.Who.TheVariants.{Node, Net};

use memory_count::{Memory, NoMemory};
use node_audit::{ends_poll, is_polls};
use rpc_base::{Fact, NodeId, Who};
use std::alloc::Global;

/// The nodes that are in the midst of a poll, after the facts so far.
#[derive(Debug, Drop)]
pub struct OpenPolls {
    nodes: Vec<u8>,
}

// Whose fact it is, None where it is the network's.
fn node_of(fact: &Fact) -> Option<u8>
    ensures node { IfSome result (λ n. fact.now.who ≡ Node n) }
    ensures net { IfNone result (fact.now.who ≡ Net) }
{
    match fact.who {
        Who::Node(node) => Some(node.0),
        Who::Net => None,
    }
}

// Whether a node is among some.
fn is_among(node: u8, nodes: &[u8]) -> bool
    ensures { result ≡ is_among node nodes.now }
{
    nodes.iter().any(|other| *other == node)
}

// One more node.
fn open(memory: &mut Memory, nodes: &mut Vec<u8>, node: u8) -> Result<(), NoMemory>
    ensures more { OnOk result ((n : ℕ) → is_among n nodes.new.items
        ≡ (node == n || is_among n nodes.old.items)) }
    ensures cause { HasCause memory.old memory.new result }
{
    if !is_among(node, nodes.as_slice()) {
        memory.push(nodes, node)?;
    }
    Ok(())
}

// A node less.
fn shut(nodes: &mut Vec<u8>, node: u8)
    ensures { (n : ℕ) → is_among n nodes.new.items
        ≡ (not (node == n) && is_among n nodes.old.items) }
{
    nodes.retain(|other| *other != node);
}

impl OpenPolls {
    /// None, before any fact.
    pub fn new(alloc: Global) -> OpenPolls
        ensures { AreOpen result.nodes.items [] }
    {
        OpenPolls {
            nodes: Vec::new(alloc),
        }
    }

    /// Takes note of the next fact. `NoMemory` comes only where memory for one more node was
    /// refused.
    pub fn note(&mut self, memory: &mut Memory, fact: &Fact) -> Result<(), NoMemory>
        ensures noted { OnOk result ((h : List Fact) → AreOpen self.old.nodes.items h
            → AreOpen self.new.nodes.items (h ++ fact.now ∷ [])) }
        ensures cause { HasCause memory.old memory.new result }
    {
        let Some(node) = node_of(fact) else {
            return Ok(());
        };
        if is_polls(&fact.event) {
            open(memory, &mut self.nodes, node)?;
        } else if ends_poll(&fact.event) {
            shut(&mut self.nodes, node);
        }
        Ok(())
    }

    /// Whether a node is in the midst of a poll.
    pub fn is_open(&self, node: NodeId) -> bool
        ensures { (h : List Fact) → AreOpen self.now.nodes.items h
            → result ≡ is_open node false h }
    {
        is_among(node.0, self.nodes.as_slice())
    }

    /// Whether no node is in the midst of a poll.
    pub fn is_whole(&self) -> bool
        ensures { (h : List Fact) → AreOpen self.now.nodes.items h → IsTrue result ↔ IsWhole h }
    {
        self.nodes.is_empty()
    }
}
