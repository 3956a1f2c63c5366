//! What stands before a line, as far as it decides what the line may say.
ghost use Rattle.std.specs.Prelude.{◌≡◌};
ghost use Rattle.script_grammar.specs.Rules.{names_one, names_two, misnamed, node_admitted};
ghost use Rattle.script_grammar.specs.Rules.{other_admitted, admitted};

use crate::bad::BadWhy;
use crate::line::Command;
use rpc_base::NodeId;

/// A script has so many nodes at least, before its other commands.
pub const FEWEST_NODES: u8 = 2;
/// A script has no more nodes.
pub const MOST_NODES: u8 = 8;

/// The node lines that came, and whether another command came.
#[derive(Clone, Copy)]
pub struct Before {
    pub nodes: u8,
    pub begun: bool,
}

/// Tells what is wrong with the node that a command names, if something is.
#[tactic(auto, unfolding(crate::specs::Rules::names_one))]
fn names_one(nodes: u8, node: NodeId) -> Option<BadWhy>
    ensures { result ≡ names_one nodes node }
{
    if node.0 < nodes {
        None
    } else {
        Some(BadWhy::Node)
    }
}

/// Tells what is wrong with the two nodes that a command names, if something is.
#[tactic(auto, unfolding(crate::specs::Rules::names_two))]
fn names_two(nodes: u8, a: NodeId, b: NodeId) -> Option<BadWhy>
    ensures { result ≡ names_two nodes a b }
{
    if a.0 < nodes && b.0 < nodes {
        if a == b { Some(BadWhy::Same) } else { None }
    } else {
        Some(BadWhy::Node)
    }
}

/// Tells what is wrong with the nodes that a command names, if something is.
#[tactic(auto, unfolding(crate::specs::Rules::misnamed))]
fn misnamed(nodes: u8, command: &Command) -> Option<BadWhy>
    ensures { result ≡ misnamed nodes command.now }
{
    match command {
        Command::Pair { a, b, .. } | Command::Connect { a, b, .. } => names_two(nodes, *a, *b),
        Command::Disconnect { node, .. }
        | Command::Rate { node, .. }
        | Command::Call { node, .. }
        | Command::Poll { node }
        | Command::Restart { node }
        | Command::Work { node, .. } => names_one(nodes, *node),
        Command::Node { .. }
        | Command::Arrive { .. }
        | Command::Lose { .. }
        | Command::Repeat { .. }
        | Command::Tick { .. }
        | Command::Settle { .. } => None,
    }
}

impl Before {
    /// Before the first command.
    pub const START: Before = Before {
        nodes: 0,
        begun: false,
    };

    /// What stands before the next line, where a node line may come here.
    #[tactic(auto, unfolding(crate::specs::Rules::node_admitted))]
    fn admit_node(self) -> Result<Before, BadWhy>
        ensures { result ≡ node_admitted self }
    {
        if self.begun || self.nodes >= MOST_NODES {
            return Err(BadWhy::Nodes);
        }
        Ok(Before {
            nodes: self.nodes + 1,
            begun: self.begun,
        })
    }

    /// The same of another command; `wrong` is what is wrong with the nodes that it names.
    #[tactic(auto, unfolding(crate::specs::Rules::other_admitted))]
    fn admit_other(self, wrong: Option<BadWhy>) -> Result<Before, BadWhy>
        ensures { result ≡ other_admitted self wrong }
    {
        if self.nodes < FEWEST_NODES {
            return Err(BadWhy::Nodes);
        }
        match wrong {
            Some(why) => Err(why),
            None => Ok(Before {
                nodes: self.nodes,
                begun: true,
            }),
        }
    }

    /// What stands before the next line, where the command may come here.
    #[tactic(auto, unfolding(crate::specs::Rules::admitted))]
    pub fn admit(self, command: &Command) -> Result<Before, BadWhy>
        ensures { result ≡ admitted self command.now }
    {
        match command {
            Command::Node { .. } => self.admit_node(),
            _ => self.admit_other(misnamed(self.nodes, command)),
        }
    }
}
