//! From a history to what its picture shows.
ghost use Rattle.std.specs.Prelude.{◌≡◌, ◌<◌, ◌++◌, length, map, IfOk, OnOk};
ghost use Rattle.memory_count.specs.Faults.{HasCause};
ghost use Rattle.rpc_base.specs.declared.event.Event.{Event};
ghost use Rattle.sequence_picture.specs.Copies.{AllJoin};
ghost use Rattle.sequence_picture.specs.Drawing.{carried_end, drawing, flying, things_at};
ghost use Rattle.sequence_picture.specs.Drawing.{things_of_net, things_of_node};

use crate::arrival::arrives_at;
use crate::marks::is_marked;
use crate::things::{Drawn, End, Track};
use crate::tracks::follow;
use memory_count::{Memory, NoMemory};
use rpc_base::{Event, Fact, Listed, Who};

// How a copy of the datagram that was sent at `sent` ends where the fact at `place` carries it.
fn carried_end(facts: &[Fact], sent: usize, place: usize) -> End
    requires { place < length facts.now }
    ensures { result ≡ carried_end facts.now sent place }
{
    if arrives_at(facts, sent, place + 1) {
        End::Came(place + 1)
    } else {
        End::Untold(place)
    }
}

// Draws the carried copy, if there is one.
fn show_carried(
    memory: &mut Memory,
    facts: &[Fact],
    place: usize,
    copy: u32,
    tracks: &Listed<Track>,
    drawn: &mut Listed<Drawn>,
) -> Result<(), NoMemory>
    requires { place < length facts.now }
    ensures drawn { OnOk result (drawn.new ≡ drawn.old
        ++ things_of_net facts.now place (Event.Carried copy) tracks.now) }
    ensures cause { HasCause memory.old memory.new result }
{
    let copy = copy as usize;
    if copy < tracks.len() {
        let track = *tracks.at(copy);
        let end = carried_end(facts, track.sent, place);
        memory.of(drawn.push(Drawn::Copy(track, end)))?;
    }
    Ok(())
}

// Draws the lost copy, if there is one.
fn show_lost(
    memory: &mut Memory,
    facts: &[Fact],
    place: usize,
    copy: u32,
    tracks: &Listed<Track>,
    drawn: &mut Listed<Drawn>,
) -> Result<(), NoMemory>
    ensures drawn { OnOk result (drawn.new ≡ drawn.old
        ++ things_of_net facts.now place (Event.Lost copy) tracks.now) }
    ensures cause { HasCause memory.old memory.new result }
{
    let copy = copy as usize;
    if copy < tracks.len() {
        memory.of(drawn.push(Drawn::Copy(*tracks.at(copy), End::Lost(place))))?;
    }
    Ok(())
}

// Draws what a fact of the network shows.
fn show_net(
    memory: &mut Memory,
    facts: &[Fact],
    place: usize,
    event: &Event,
    tracks: &Listed<Track>,
    drawn: &mut Listed<Drawn>,
) -> Result<(), NoMemory>
    requires { place < length facts.now }
    ensures drawn { OnOk result (drawn.new ≡ drawn.old
        ++ things_of_net facts.now place event.now tracks.now) }
    ensures cause { HasCause memory.old memory.new result }
{
    if let Event::Carried { copy } = event {
        return show_carried(memory, facts, place, *copy, tracks, drawn);
    }
    if let Event::Lost { copy } = event {
        return show_lost(memory, facts, place, *copy, tracks, drawn);
    }
    if let Event::Ticked { .. } = event {
        memory.of(drawn.push(Drawn::Mark(place)))?;
    }
    Ok(())
}

// Draws what a fact of a node shows.
fn show_node(
    memory: &mut Memory,
    place: usize,
    event: &Event,
    drawn: &mut Listed<Drawn>,
) -> Result<(), NoMemory>
    ensures drawn { OnOk result (drawn.new ≡ drawn.old ++ things_of_node place event.now) }
    ensures cause { HasCause memory.old memory.new result }
{
    if is_marked(event) {
        memory.of(drawn.push(Drawn::Mark(place)))?;
    }
    Ok(())
}

// Draws what the fact at this place shows.
fn show(
    memory: &mut Memory,
    facts: &[Fact],
    place: usize,
    fact: &Fact,
    tracks: &Listed<Track>,
    drawn: &mut Listed<Drawn>,
) -> Result<(), NoMemory>
    requires { place < length facts.now }
    ensures drawn { OnOk result
        (drawn.new ≡ drawn.old ++ things_at facts.now place fact.now tracks.now) }
    ensures cause { HasCause memory.old memory.new result }
{
    match fact.who {
        Who::Node(_) => show_node(memory, place, &fact.event, drawn),
        Who::Net => show_net(memory, facts, place, &fact.event, tracks, drawn),
    }
}

// Draws what is in flight at the end.
fn show_flying(
    memory: &mut Memory,
    tracks: &[Track],
    drawn: &mut Listed<Drawn>,
) -> Result<(), NoMemory>
    ensures drawn { OnOk result (drawn.new ≡ drawn.old ++ map flying tracks.now) }
    ensures cause { HasCause memory.old memory.new result }
{
    for track in tracks {
        memory.of(drawn.push(Drawn::Copy(*track, End::Flying)))?;
    }
    Ok(())
}

/// What the picture of a history shows, in the order of its facts, and last what is in flight at
/// its end. `NoMemory` comes only where there is no memory for it.
pub fn draw(memory: &mut Memory, facts: &[Fact]) -> Result<Listed<Drawn>, NoMemory>
    ensures drawn { IfOk result (λ drawn. drawn ≡ drawing facts.now) }
    ensures joins { IfOk result (AllJoin facts.now) }
    ensures cause { HasCause memory.old memory.new result }
{
    let mut tracks = Listed::new(memory.alloc());
    let mut drawn = Listed::new(memory.alloc());
    for (place, fact) in facts.iter().enumerate() {
        show(memory, facts, place, fact, &tracks, &mut drawn)?;
        follow(memory, place, fact, &mut tracks)?;
    }
    show_flying(memory, tracks.as_slice(), &mut drawn)?;
    Ok(drawn)
}
