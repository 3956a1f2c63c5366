//! The endpoints of the rows, each over a link in memory.
ghost use Rattle.memory_count.specs.Faults.{HasCause};

use crate::bench::{Bench, FIRST, LIMITS};
use crate::counter::Counter;
use crate::links::sound_link;
use crate::newest::NewestFirst;
use endpoint_loop::Endpoint;
use memory_count::{Memory, NoMemory};
use rpc_base::{NodeId, Peer, USUAL_JOBS};
use rpc_outside::{MemLink, PlainDuty, PlainService};
use std::alloc::Global;
use worker_crew::LocalWorkers;

/// The number of the client's node.
const CLIENT: u8 = 0;

/// The number of the server's node.
const SERVER: u8 = 1;

/// A node with the plain service, and workers that work when they are told to.
pub type Plain = Bench<PlainService, LocalWorkers<PlainDuty>>;

/// A node with a service that counts what it served.
pub type Counting = Bench<Counter, LocalWorkers<PlainDuty>>;

/// A node whose workers give the newest job back first.
pub type Newest = Bench<PlainService, NewestFirst>;

type PlainEndpoint = Endpoint<PlainService, LocalWorkers<PlainDuty>>;

fn plain_endpoint(memory: &mut Memory, me: u8) -> Result<PlainEndpoint, NoMemory>
    ensures cause { HasCause memory.old memory.new result }
{
    let workers = LocalWorkers::new(memory, PlainDuty, USUAL_JOBS)?;
    match Endpoint::new(
        memory,
        NodeId(me),
        FIRST,
        LIMITS,
        PlainService::new(),
        workers,
    ) {
        Ok(endpoint) => Ok(endpoint),
        Err(_workers) => Err(NoMemory),
    }
}

/// The client with the plain service, over this link.
pub fn client_over(memory: Memory, link: MemLink) -> Result<Plain, NoMemory> {
    let mut memory = memory;
    let endpoint = plain_endpoint(&mut memory, CLIENT)?;
    Ok(Bench::over(memory, endpoint, Peer(SERVER), link))
}

/// The client with the plain service, over a link that takes all.
pub fn plain_client(alloc: Global) -> Result<Plain, NoMemory> {
    let mut memory = Memory::new(alloc);
    let link = sound_link(&mut memory)?;
    client_over(memory, link)
}

/// The server with the plain service.
pub fn plain_server(alloc: Global) -> Result<Plain, NoMemory> {
    let mut memory = Memory::new(alloc);
    let endpoint = plain_endpoint(&mut memory, SERVER)?;
    let link = sound_link(&mut memory)?;
    Ok(Bench::over(memory, endpoint, Peer(CLIENT), link))
}

/// The server with a service that counts what it served.
pub fn counting_server(alloc: Global) -> Result<Counting, NoMemory> {
    let mut memory = Memory::new(alloc);
    let workers = LocalWorkers::new(&mut memory, PlainDuty, USUAL_JOBS)?;
    let (me, service) = (NodeId(SERVER), Counter::new());
    let Ok(endpoint) = Endpoint::new(&mut memory, me, FIRST, LIMITS, service, workers) else {
        return Err(NoMemory);
    };
    let link = sound_link(&mut memory)?;
    Ok(Bench::over(memory, endpoint, Peer(CLIENT), link))
}

/// The server whose workers give the newest job back first.
pub fn newest_server(alloc: Global) -> Result<Newest, NoMemory> {
    let mut memory = Memory::new(alloc);
    let workers = NewestFirst::new(&mut memory, USUAL_JOBS)?;
    let (me, service) = (NodeId(SERVER), PlainService::new());
    let Ok(endpoint) = Endpoint::new(&mut memory, me, FIRST, LIMITS, service, workers) else {
        return Err(NoMemory);
    };
    let link = sound_link(&mut memory)?;
    Ok(Bench::over(memory, endpoint, Peer(CLIENT), link))
}
