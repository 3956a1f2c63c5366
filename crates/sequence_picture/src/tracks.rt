//! The copies in flight, by the facts that put them there.
ghost use Rattle.std.specs.Prelude.{◌≡◌, OnOk};
ghost use Rattle.std.specs.List.{remove};
ghost use Rattle.memory_count.specs.Faults.{HasCause};
ghost use Rattle.rpc_base.specs.declared.event.Event.{Event};
ghost use Rattle.sequence_picture.specs.Tracks.{tracks_after, tracks_after_net, tracks_after_node};

use crate::things::Track;
use memory_count::{Memory, NoMemory};
use rpc_base::{Event, Fact, Listed, Who};

// What a fact of a node does to the copies in flight.
fn follow_node(
    memory: &mut Memory,
    place: usize,
    event: &Event,
    tracks: &mut Listed<Track>,
) -> Result<(), NoMemory>
    ensures tracks { OnOk result (tracks.new ≡ tracks_after_node place event.now tracks.old) }
    ensures cause { HasCause memory.old memory.new result }
{
    if let Event::Sent { .. } = event {
        let track = Track {
            sent: place,
            put: place,
        };
        memory.of(tracks.push(track))?;
    }
    Ok(())
}

// One more copy of that one.
fn repeat(
    memory: &mut Memory,
    place: usize,
    copy: u32,
    tracks: &mut Listed<Track>,
) -> Result<(), NoMemory>
    ensures tracks { OnOk result
        (tracks.new ≡ tracks_after_net place (Event.Repeated copy) tracks.old) }
    ensures cause { HasCause memory.old memory.new result }
{
    let copy = copy as usize;
    if copy < tracks.len() {
        let sent = tracks.at(copy).sent;
        memory.of(tracks.push(Track { sent, put: place }))?;
    }
    Ok(())
}

// Takes that copy out of flight, if it is there.
fn take_out(copy: u32, tracks: &mut Listed<Track>)
    ensures { tracks.new ≡ remove tracks.old copy }
{
    let copy = copy as usize;
    if copy < tracks.len() {
        tracks.remove_at(copy);
    }
}

// What a fact of the network does to the copies in flight.
fn follow_net(
    memory: &mut Memory,
    place: usize,
    event: &Event,
    tracks: &mut Listed<Track>,
) -> Result<(), NoMemory>
    ensures tracks { OnOk result (tracks.new ≡ tracks_after_net place event.now tracks.old) }
    ensures cause { HasCause memory.old memory.new result }
{
    if let Event::Repeated { copy } = event {
        return repeat(memory, place, *copy, tracks);
    }
    if let Event::Carried { copy } | Event::Lost { copy } = event {
        take_out(*copy, tracks);
    }
    Ok(())
}

/// What the fact at this place does to the copies in flight. `NoMemory` comes only where there is
/// no memory for one more copy.
pub fn follow(
    memory: &mut Memory,
    place: usize,
    fact: &Fact,
    tracks: &mut Listed<Track>,
) -> Result<(), NoMemory>
    ensures tracks { OnOk result (tracks.new ≡ tracks_after place fact.now tracks.old) }
    ensures cause { HasCause memory.old memory.new result }
{
    match fact.who {
        Who::Node(_) => follow_node(memory, place, &fact.event, tracks),
        Who::Net => follow_net(memory, place, &fact.event, tracks),
    }
}
