//! What the types of a fact's numbers and bytes say.
ghost use Rattle.std.specs.Prelude.{◌<◌};
ghost use Rattle.report_reader.specs.Ranges.{AreOctets, EventInRange, InRange, WhoInRange};

use rpc_base::{Event, Fact, Who};

fn who_in_range(who: Who)
    ensures { WhoInRange who }
{}

fn event_in_range(event: Event)
    ensures { EventInRange event }
{}

fn is_octet(byte: u8)
    ensures { byte < 256 }
{}

fn are_octets(bytes: &[u8])
    ensures { AreOctets bytes.now }
{
    for byte in bytes {
        is_octet(*byte);
    }
}

/// A law: a fact is in range. It looks at nothing but its types.
pub fn in_range(fact: &Fact)
    ensures { InRange fact.now }
{
    who_in_range(fact.who);
    event_in_range(fact.event);
    are_octets(fact.first.bytes());
    are_octets(fact.second.bytes());
}
