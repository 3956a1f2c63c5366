//! The rules of a poll that note one fact with no bytes: a packet that is taken out of the inbox,
//! what a session begins and posts next, and the end of the poll.
ghost use Rattle.std.specs.Prelude.{◌≡◌, ◌↔◌, IsTrue};
ghost use Rattle.rpc_base.specs.declared.event.Event.TheVariants.{Heard, Polled};
ghost use Rattle.rpc_laws.specs.Facts.{plain};
ghost use Rattle.rpc_laws.specs.Posting.{next_begun, next_posted};
ghost use Rattle.rule_facts.specs.NextFacts.{IsNext};

use crate::says::{says_begun, says_heard, says_polled, says_posted};
use node_rules::{next_begun, next_posted};
use rpc_base::Fact;
use rpc_laws::Lists;

/// Whether a fact says that a packet was taken out of the inbox.
pub fn is_heard(lists: &Lists, fact: &Fact) -> bool
    ensures { IsTrue result ↔ (fact.now ≡ plain lists.now.me Heard) }
{
    let says = says_heard(fact, lists.me);
    says
}

/// Whether a fact says that client session `i` begins its next call.
pub fn is_next_begun(lists: &Lists, i: usize, fact: &Fact) -> bool
    ensures { IsTrue result ↔ IsNext (next_begun i lists.now) lists.now.me fact.now }
{
    let Some(next) = next_begun(lists, i) else {
        return false;
    };
    says_begun(fact, lists.me, next.0, next.1)
}

/// Whether a fact says that client session `i` posts its next packet.
pub fn is_next_posted(lists: &Lists, i: usize, fact: &Fact) -> bool
    ensures { IsTrue result ↔ IsNext (next_posted i lists.now) lists.now.me fact.now }
{
    let Some(next) = next_posted(lists, i) else {
        return false;
    };
    says_posted(fact, lists.me, next.0, next.1)
}

/// Whether a fact says that a poll of the node ended at this clock, in microseconds.
pub fn is_end(lists: &Lists, clock: u64, fact: &Fact) -> bool
    ensures { IsTrue result ↔ (fact.now ≡ plain lists.now.me (Polled clock)) }
{
    let says = says_polled(fact, lists.me, clock);
    says
}
