//! The auditor, a fact at a time.
ghost use Rattle.std.specs.Prelude.{ℕ, ◌≡◌, ◌+◌, ◌<◌, ◌^◌, ◌++◌, ◌∷◌, [], List, IfOk, OnOk};
ghost use Rattle.std.specs.Prelude.{length};
ghost use Rattle.history_audit.specs.Audit.{FrontsLawful};
ghost use Rattle.history_audit.specs.Auditing.{Finds, FrontsBefore, HasRead, IsFault, IsVerdict};
ghost use Rattle.history_audit.specs.OpenPolls.{AreOpen};
ghost use Rattle.history_audit.specs.Tables.{IsFair};
ghost use Rattle.history_audit.specs.Wrong.{IsWrong};
ghost use Rattle.memory_count.specs.Faults.{HasCause};
ghost use Rattle.report_reader.specs.Lines.{IsReportOf};
ghost use Rattle.report_text.specs.Told.{IsTold};
ghost use Rattle.rpc_base.specs.declared.fact.Fact.{Fact};

use crate::fault::{Fault, Wrong};
use crate::polls::OpenPolls;
use crate::tables::Tables;
use crate::verdict::Verdict;
use memory_count::{Memory, NoMemory};
use rpc_base::Fact;

/// What is found of the facts so far.
#[derive(Clone, Copy, Debug)]
pub enum Finding {
    /// Nothing: they may be the front of a lawful history.
    Fair,
    /// Some first ones of them break this claim, and a node is in the midst of a poll.
    Doomed { wrong: Wrong },
    /// This line has the last fact of the shortest front that isn't lawful, and at whose end no
    /// node is in the midst of a poll. Some first facts of this front break the claim.
    Unlawful { line: u64, wrong: Wrong },
}

/// The auditor of a history.
#[derive(Drop)]
pub struct Auditor {
    tables: Tables,
    polls: OpenPolls,
    facts: u64,
    finding: Finding,
}

impl Auditor {
    /// Before any fact. `NoMemory` comes only where memory for the nodes was refused.
    pub fn new(memory: &mut Memory) -> Result<Auditor, NoMemory>
        ensures none { IfOk result (λ a. HasRead a []) }
        ensures cause { HasCause memory.old memory.new result }
    {
        let tables = Tables::new(memory)?;
        Ok(Auditor {
            tables,
            polls: OpenPolls::new(memory.alloc()),
            facts: 0,
            finding: Finding::Fair,
        })
    }

    /// How many facts it has read.
    pub fn facts(&self) -> u64
        ensures { result ≡ self.now.facts }
    {
        self.facts
    }

    // What is found where the facts so far break a claim, and each shorter front is lawful.
    fn doomed(&self, wrong: Wrong) -> Finding
        requires few { self.now.facts < 2 ^ 63 }
        ensures { (h : List Fact) → AreOpen self.now.polls.nodes.items h
            → self.now.facts ≡ length h → IsWrong wrong h → FrontsBefore h
            → Finds self.now.tables result h }
    {
        if self.polls.is_whole() {
            Finding::Unlawful {
                line: self.facts + 1,
                wrong,
            }
        } else {
            Finding::Doomed { wrong }
        }
    }

    // Notes the last fact in the tables, and what is found then.
    fn find(&mut self, memory: &mut Memory, fact: &Fact) -> Result<(), NoMemory>
        requires few { self.old.facts < 2 ^ 63 }
        ensures finds { OnOk result ((h : List Fact) → IsTold fact.now
            → AreOpen self.old.polls.nodes.items (h ++ fact.now ∷ [])
            → self.old.facts ≡ length (h ++ fact.now ∷ [])
            → Finds self.old.tables self.old.finding h
            → Finds self.new.tables self.new.finding (h ++ fact.now ∷ [])) }
        ensures polls { self.new.polls ≡ self.old.polls }
        ensures facts { self.new.facts ≡ self.old.facts }
        ensures cause { HasCause memory.old memory.new result }
    {
        match self.finding {
            Finding::Fair => match self.tables.note(memory, fact, &self.polls)? {
                None => Ok(()),
                Some(wrong) => {
                    self.finding = self.doomed(wrong);
                    Ok(())
                }
            },
            Finding::Doomed { wrong } => {
                self.finding = self.doomed(wrong);
                Ok(())
            }
            Finding::Unlawful { .. } => Ok(()),
        }
    }

    /// Takes note of the next fact. `NoMemory` comes only where memory for what it changes was
    /// refused; the auditor is of no use then.
    pub fn note(&mut self, memory: &mut Memory, fact: &Fact) -> Result<(), NoMemory>
        requires few { self.old.facts + 1 < 2 ^ 63 }
        ensures noted { OnOk result ((h : List Fact) → IsTold fact.now → HasRead self.old h
            → HasRead self.new (h ++ fact.now ∷ [])) }
        ensures cause { HasCause memory.old memory.new result }
    {
        self.polls.note(memory, fact)?;
        self.facts += 1;
        self.find(memory, fact)?;
        Ok(())
    }

    // The verdict on a report of the facts so far, of which nothing was found.
    fn ended(&self) -> Verdict
        requires few { self.now.facts < 2 ^ 63 }
        ensures { (bytes : List ℕ) (h : List Fact) → IsReportOf bytes h
            → AreOpen self.now.polls.nodes.items h → self.now.facts ≡ length h → IsFair h
            → FrontsLawful h (length h) → IsVerdict bytes result }
    {
        if self.polls.is_whole() {
            Verdict::Lawful { facts: self.facts }
        } else {
            Verdict::Unlawful {
                line: self.facts + 2,
            }
        }
    }

    /// The verdict on a report of the facts so far.
    pub fn verdict(&self) -> Verdict
        requires few { self.now.facts < 2 ^ 63 }
        ensures { (bytes : List ℕ) (h : List Fact) → IsReportOf bytes h → HasRead self.now h
            → IsVerdict bytes result }
    {
        match self.finding {
            Finding::Fair => self.ended(),
            Finding::Doomed { .. } => Verdict::Unlawful {
                line: self.facts + 2,
            },
            Finding::Unlawful { line, .. } => Verdict::Unlawful { line },
        }
    }

    /// Why a report of the facts so far fails, where it does.
    pub fn fault(&self) -> Fault
        ensures { (bytes : List ℕ) (h : List Fact) → IsReportOf bytes h → HasRead self.now h
            → IsFault bytes result }
    {
        match self.finding {
            Finding::Fair => Fault::Unended,
            Finding::Doomed { .. } => Fault::Unended,
            Finding::Unlawful { wrong, .. } => Fault::Unlawful(wrong),
        }
    }
}
