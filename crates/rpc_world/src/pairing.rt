//! `pair A B`: both nodes are asked for room and a number, and get their ends of a session.
ghost use Rattle.std.specs.Prelude.{◌≡◌, ◌≢◌, ◌<◌, ◌≤◌, ◌++◌, ◌∷◌, [], length, None, Ok, IfErr};
ghost use Rattle.std.specs.Prelude.{IfOk};
ghost use Rattle.std.specs.Prelude.{OnOk};
ghost use Rattle.memory_count.specs.Faults.{HasReason};
ghost use Rattle.rpc_laws.specs.Facts.{plain};
ghost use Rattle.rpc_laws.specs.Groups.{pair_refusal};
ghost use Rattle.session_mgmt.specs.Refusals.{lacks, refused};
ghost use Rattle.sim_script.specs.FollowsScript.{Pairs};
ghost use Rattle.rpc_world.specs.Performed.{Performed, AsksServer, NotesRefusal};
ghost use Rattle.rpc_world.specs.Performed.{TakesEnd, TakesEnds};

use crate::landing::check_whole;
use crate::running::Running;
use endpoint_loop::Endpoint;
use memory_count::{Memory, NoMemory};
use rpc_base::{Event, MOST_CREDITS, NodeId, Peer, SESSION_NUMBERS, SessionNo, Who};
use rpc_outside::{MemRecorder, PlainDuty, PlainService, Recorder};
use session_mgmt::ConnectError;
use worker_crew::LocalWorkers;

fn note_refusal(
    memory: &mut Memory,
    rec: &mut MemRecorder,
    me: NodeId,
    event: &Event,
) -> Result<(), NoMemory>
    ensures noted { OnOk result
        (rec.new.facts.items ≡ rec.old.facts.items ++ plain me event.now ∷ []) }
    ensures cause { HasReason memory.old memory.new result }
{
    rec.note(Who::Node(me), *event, &[], &[]);
    check_whole(memory, rec)
}

// Notes why the node takes no end of a pair, and tells whether it takes none.
fn refuse(
    memory: &mut Memory,
    rec: &mut MemRecorder,
    node: &Endpoint<PlainService, LocalWorkers<PlainDuty>>,
    credits: u16,
) -> Result<bool, NoMemory>
    requires some { 1 ≤ credits }
    requires most { credits ≤ MOST_CREDITS }
    ensures refusal { IfOk result
        (λ refuses. NotesRefusal refuses (pair_refusal credits node.now.timed.lists)
        node.now.timed.lists.me rec.old.facts.items rec.new.facts.items) }
    ensures cause { HasReason memory.old memory.new result }
{
    match node.pair_room(credits) {
        Ok(()) => Ok(false),
        Err(ConnectError::NumbersSpent) => {
            note_refusal(memory, rec, node.me(), &Event::NconnectNumbers)?;
            Ok(true)
        }
        Err(
            ConnectError::RingFull {
                shares,
                credits,
                ring,
            },
        ) => {
            let refusal = Event::NconnectRing {
                shares,
                credits,
                ring,
            };
            note_refusal(memory, rec, node.me(), &refusal)?;
            Ok(true)
        }
        Err(ConnectError::NoMemory) => unreachable!(),
    }
}

// The number of the next session of a table, whose numbers aren't spent.
fn next_number(count: u64) -> SessionNo
    requires { count < SESSION_NUMBERS }
    ensures number { result ≡ count }
    ensures below { result < SESSION_NUMBERS }
{
    SessionNo(count as u16)
}

// An end that nothing refuses is made, unless memory was wanting.
fn made(end: Result<SessionNo, ConnectError>) -> Result<SessionNo, NoMemory>
    requires fits { IfErr end (λ why. refused why ≡ None) }
    ensures made { IfOk result (λ session. end ≡ Ok session) }
    ensures lacks { IfErr result (λ _. lacks end ≡ 1) }
{
    match end {
        Ok(session) => Ok(session),
        Err(ConnectError::NoMemory) => Err(NoMemory),
        Err(ConnectError::NumbersSpent) => unreachable!(),
        Err(ConnectError::RingFull { .. }) => unreachable!(),
    }
}

// Both ends are made.
fn make_ends(
    memory: &mut Memory,
    stage: &mut Running,
    rec: &mut MemRecorder,
    a: NodeId,
    b: NodeId,
    credits: u16,
) -> Result<(), NoMemory>
    requires two { b ≢ a }
    requires client { a < length stage.old.ends }
    requires server { b < length stage.old.ends }
    requires some { 1 ≤ credits }
    requires most { credits ≤ MOST_CREDITS }
    requires client_fits { TakesEnd a credits stage.old }
    requires server_fits { TakesEnd b credits stage.old }
    ensures performed { OnOk result
        (Performed (TakesEnds a b credits) stage.old stage.new rec.old.facts.items
        rec.new.facts.items) }
    ensures cause { HasReason memory.old memory.new result }
{
    let (client, server) = (usize::from(a.0), usize::from(b.0));
    let of_client = next_number(u64::from(stage.nodes.at(client).next_client()));
    let of_server = next_number(stage.nodes.at(server).next_server());
    let client_life = stage.nodes.at(client).life();
    let server_life = stage.nodes.at(server).life();
    let asking = stage.nodes.at_mut(client);
    made(asking.pair_client(memory, Peer(b.0), server_life, of_server, credits, rec))?;
    let serving = stage.nodes.at_mut(server);
    made(serving.pair_server(memory, Peer(a.0), client_life, of_client, credits, rec))?;
    check_whole(memory, rec)?;
    Ok(())
}

// The client's node takes its end: the server's is asked.
fn pair_at_server(
    memory: &mut Memory,
    stage: &mut Running,
    rec: &mut MemRecorder,
    a: NodeId,
    b: NodeId,
    credits: u16,
) -> Result<(), NoMemory>
    requires two { b ≢ a }
    requires client { a < length stage.old.ends }
    requires server { b < length stage.old.ends }
    requires some { 1 ≤ credits }
    requires most { credits ≤ MOST_CREDITS }
    requires client_fits { TakesEnd a credits stage.old }
    ensures performed { OnOk result
        (Performed (AsksServer a b credits) stage.old stage.new rec.old.facts.items
        rec.new.facts.items) }
    ensures cause { HasReason memory.old memory.new result }
{
    if refuse(memory, rec, stage.nodes.at(usize::from(b.0)), credits)? {
        return Ok(());
    }
    make_ends(memory, stage, rec, a, b, credits)?;
    Ok(())
}

/// `pair A B`: gives `a` a client session and `b` a server session, each with the other's number,
/// or notes the first refusal.
pub fn pair(
    memory: &mut Memory,
    stage: &mut Running,
    rec: &mut MemRecorder,
    a: NodeId,
    b: NodeId,
    credits: u16,
) -> Result<(), NoMemory>
    requires two { b ≢ a }
    requires client { a < length stage.old.ends }
    requires server { b < length stage.old.ends }
    requires some { 1 ≤ credits }
    requires most { credits ≤ MOST_CREDITS }
    ensures performed { OnOk result
        (Performed (Pairs a b credits) stage.old stage.new rec.old.facts.items
        rec.new.facts.items) }
    ensures cause { HasReason memory.old memory.new result }
{
    if refuse(memory, rec, stage.nodes.at(usize::from(a.0)), credits)? {
        return Ok(());
    }
    pair_at_server(memory, stage, rec, a, b, credits)?;
    Ok(())
}
