//! A report names one history.
ghost use Rattle.std.specs.Prelude.{◌≡◌};
ghost use Rattle.std.specs.List.{AllByRecursion};
ghost use Rattle.report_text.specs.Ranges.{WhoFits, EventFits, FactFits};
ghost use Rattle.report_text.specs.Text.{text};
ghost use Rattle.report_text.specs.Told.{AllTold};

use rpc_base::{Event, Fact, Who};

fn who_fits(who: Who)
    ensures { WhoFits who }
{}

fn event_fits(event: Event)
    ensures { EventFits event }
{}

fn fact_fits(fact: &Fact)
    ensures { FactFits fact.now }
{
    who_fits(fact.who);
    event_fits(fact.event);
}

fn facts_fit(facts: &[Fact])
    ensures { AllByRecursion FactFits facts.now }
{
    for fact in facts {
        fact_fits(fact);
    }
}

/// A law: two histories with the same report are the same, where no fact has other bytes than those
/// that its line shows. The loops look at nothing but the types of the numbers, which are below
/// 2^64.
pub fn text_tells(one: &[Fact], other: &[Fact])
    requires one { AllTold one.now }
    requires other { AllTold other.now }
    ensures { text one.now ≡ text other.now → one.now ≡ other.now }
{
    facts_fit(one);
    facts_fit(other);
}
