//! The lists of a node after a fact.
ghost use Rattle.std.specs.Prelude.{◌≡◌, OnOk};
ghost use Rattle.memory_count.specs.Faults.{HasCause};
ghost use Rattle.rpc_laws.specs.NodeLists.{after};
ghost use Rattle.node_tables.specs.Changed.{others_changed, sessions_changed};

use crate::client_events::change_clients;
use crate::counting::{change_counts, count_asked, count_server_numbers};
use crate::jobs::change_jobs;
use crate::lives::change_known;
use crate::pacing::{change_paces, due_of};
use crate::queues::{change_inbox, change_queued, change_ring};
use crate::servers::change_servers;
use memory_count::{Memory, NoMemory};
use rpc_base::Fact;
use rpc_laws::Lists;

// What looks at other tables comes first, since it looks at them as they were before the fact.
fn change_sessions(
    memory: &mut Memory,
    lists: &mut Lists,
    clock: u64,
    fact: &Fact,
) -> Result<(), NoMemory>
    ensures lists { OnOk result (lists.new ≡ sessions_changed clock fact.now lists.old) }
    ensures cause { HasCause memory.old memory.new result }
{
    let event = &fact.event;
    let due = due_of(&lists.paces, event, clock);
    change_queued(memory, &mut lists.queued, event, due)?;
    change_paces(memory, &mut lists.paces, &lists.clients, event, clock)?;
    change_jobs(memory, &mut lists.jobs, &lists.servers, event)?;
    let first = fact.first.bytes();
    change_clients(memory, &mut lists.clients, &lists.ring, event, first, clock)?;
    let second = fact.second.bytes();
    change_servers(memory, &mut lists.servers, &lists.ring, event, second)?;
    Ok(())
}

// The ring, the inbox, the lives that are known and the counts.
fn change_others(memory: &mut Memory, lists: &mut Lists, fact: &Fact) -> Result<(), NoMemory>
    ensures lists { OnOk result (lists.new ≡ others_changed fact.now lists.old) }
    ensures cause { HasCause memory.old memory.new result }
{
    let event = &fact.event;
    let first = fact.first.bytes();
    change_ring(memory, &mut lists.ring, event, first)?;
    change_inbox(memory, &mut lists.inbox, event, first)?;
    change_known(&mut lists.known, event, first);
    lists.asked = count_asked(memory, lists.asked, event)?;
    lists.server_numbers = count_server_numbers(memory, lists.server_numbers, event)?;
    lists.counts = change_counts(&lists.counts, event);
    Ok(())
}

/// Changes the lists as a fact of their node does that happens at this clock, in microseconds. Want
/// of memory leaves them half changed.
pub fn apply(
    memory: &mut Memory,
    lists: &mut Lists,
    clock: u64,
    fact: &Fact,
) -> Result<(), NoMemory>
    ensures lists { OnOk result (lists.new ≡ after clock lists.old fact.now) }
    ensures cause { HasCause memory.old memory.new result }
{
    change_sessions(memory, lists, clock, fact)?;
    change_others(memory, lists, fact)
}
