//! What is kept of the facts so far, and whether the next one goes on lawfully.
ghost use Rattle.std.specs.Prelude.{◌≡◌, ◌++◌, ◌∷◌, [], ◌↔◌, List, IsTrue, IfOk, MatchOption};
ghost use Rattle.history_audit.specs.Judged.{IsJudged};
ghost use Rattle.history_audit.specs.OpenPolls.{AreOpen};
ghost use Rattle.history_audit.specs.Nodes.{KeepsEach};
ghost use Rattle.history_audit.specs.Tables.{HaveNoted, IsClaimed, IsFair, RunsAt, RunsOutside};
ghost use Rattle.history_audit.specs.Wrong.{IsBroken};
ghost use Rattle.memory_count.specs.Faults.{HasCause};
ghost use Rattle.report_text.specs.Told.{IsTold};
ghost use Rattle.rpc_base.specs.declared.fact.Fact.{Fact};

use crate::calm::Roughness;
use crate::fault::Wrong;
use crate::lives::Lives;
use crate::net::keeps_net;
use crate::nodes::Nodes;
use crate::polls::OpenPolls;
use call_book::Book;
use memory_count::{Memory, NoMemory};
use rpc_base::{Fact, NodeId, Who};

/// What is kept of the facts so far, to judge the next one by.
#[derive(Drop)]
pub struct Tables {
    nodes: Nodes,
    lives: Lives,
    rough: Roughness,
    book: Book,
}

impl Tables {
    /// Before any fact. `NoMemory` comes only where memory for the nodes was refused.
    pub fn new(memory: &mut Memory) -> Result<Tables, NoMemory>
        ensures none { IfOk result (λ t. HaveNoted t []) }
        ensures cause { HasCause memory.old memory.new result }
    {
        let nodes = Nodes::new(memory)?;
        let lives = Lives::new(memory)?;
        Ok(Tables {
            nodes,
            lives,
            rough: Roughness::new(),
            book: Book::new(memory.alloc()),
        })
    }

    // Which claim is broken, where the next fact is this one; `None` where what is claimed at each
    // fact is claimed still.
    fn broken_claim(&self, fact: &Fact) -> Option<Wrong>
        ensures { (h : List Fact) → HaveNoted self.now h → IsClaimed h
            → MatchOption result (IsClaimed (h ++ fact.now ∷ []))
            (λ wrong. IsBroken wrong (h ++ fact.now ∷ [])) }
    {
        if !keeps_net(fact) {
            return Some(Wrong::Net);
        }
        let life = self.lives.at(fact.who);
        if !self.book.keeps_own(fact, life) {
            return Some(Wrong::Call);
        }
        if !self.rough.keeps_fit(fact) {
            return Some(Wrong::Ring);
        }
        None
    }

    // Whether a node has noted its Made and a run, if it isn't in the midst of a poll.
    fn runs_outside(&self, node: NodeId, polls: &OpenPolls) -> bool
        ensures { (h : List Fact) → KeepsEach self.now.nodes.nodes h
            → AreOpen polls.now.nodes.items h → IsTrue result ↔ RunsOutside node h }
    {
        if polls.is_open(node) {
            return true;
        }
        self.nodes.is_run(node)
    }

    // So it is asked of the node of the last fact: which run is broken, where one is.
    fn broken_run(&self, who: Who, polls: &OpenPolls) -> Option<Wrong>
        ensures { (h : List Fact) → KeepsEach self.now.nodes.nodes h
            → AreOpen polls.now.nodes.items h
            → MatchOption result (RunsAt who h) (λ wrong. IsBroken wrong h) }
    {
        match who {
            Who::Node(node) => {
                if self.runs_outside(node, polls) {
                    None
                } else {
                    Some(Wrong::Run(node))
                }
            }
            Who::Net => None,
        }
    }

    /// Takes note of the next fact of a history that is fair so far; the polls that are open are
    /// those behind it. `None` where the history is fair still; otherwise the claim that it breaks,
    /// and the tables are of no use any more. `NoMemory` comes only where memory for what the fact
    /// changes was refused.
    pub fn note(
        &mut self,
        memory: &mut Memory,
        fact: &Fact,
        polls: &OpenPolls,
    ) -> Result<Option<Wrong>, NoMemory>
        ensures judged { IfOk result (λ wrong. (h : List Fact) → IsTold fact.now
            → HaveNoted self.old h → AreOpen polls.now.nodes.items (h ++ fact.now ∷ []) → IsFair h
            → IsJudged wrong self.new (h ++ fact.now ∷ [])) }
        ensures cause { HasCause memory.old memory.new result }
    {
        if let Some(wrong) = self.broken_claim(fact) {
            return Ok(Some(wrong));
        }
        self.nodes.note(memory, fact)?;
        if let Some(wrong) = self.broken_run(fact.who, polls) {
            return Ok(Some(wrong));
        }
        let life = self.lives.at(fact.who);
        self.book.note(memory, fact, life)?;
        self.lives.note(fact);
        self.rough.note(fact);
        Ok(None)
    }
}
