//! Echoes of five bytes, one after another, between two endpoints of this program: what a call
//! costs its endpoints alone. There are no clock and no notes, and the link is a place for one
//! datagram.
ghost use Rattle.std.specs.Prelude.{◌<◌, None};
ghost use Rattle.memory_count.specs.Faults.{HasCause};
ghost use Rattle.rpc_base.specs.declared.limits.TheConstants.{SESSION_NUMBERS};

use client_core::Done;
use endpoint_loop::{Continuation, Endpoint};
use memory_count::{Memory, NoMemory};
use message_buffer::MsgBuf;
use packet_header::{FIRST_LIFE, Life};
use rpc_base::{Limits, NodeId, Peer, SessionNo, USUAL_JOBS};
use rpc_outside::{Failed, Got, Link, MOST_LINK_BYTES, NoRecord, PlainDuty, PlainService, Taken};
use std::alloc::Global;
use worker_crew::LocalWorkers;

/// The life of both endpoints.
const FIRST: Life = Life(FIRST_LIFE);

/// What each call asks.
const ASKED: &[u8] = b"hello";

/// The type of the plain service that answers with what it was asked.
const ECHO: u8 = 1;

/// How many bytes an answer may have.
const ROOM: u32 = 64;

/// The numbers of the two nodes, by which they are each other's peers.
const CLIENT: u8 = 0;

const SERVER: u8 = 1;

type PlainNode = Endpoint<PlainService, LocalWorkers<PlainDuty>>;

/// A link that keeps the newest datagram that it was handed, for the other end.
#[derive(Drop)]
struct Newest {
    bytes: [u8; MOST_LINK_BYTES],
    len: usize,
    faults: u64,
}

impl Newest {
    fn new() -> Newest {
        Newest {
            bytes: [0; MOST_LINK_BYTES],
            len: 0,
            faults: 0,
        }
    }

    fn datagram(&self) -> &[u8] {
        self.bytes.get(..self.len).unwrap_or_default()
    }
}

impl Link for Newest {
    ghost sent = { λ _. None };

    ghost received = { λ _. None };

    ghost waiting = { λ _. None };

    ghost bound = { λ _. None };

    ghost numbers = { λ _ _. None };

    ghost faults = { λ l. l.faults };

    ghost busies = { λ _. 0 };

    fn bind(&mut self, _addr: &str) -> Result<(), Failed> {
        Ok(())
    }

    fn peer(&mut self, _addr: &str) -> Result<Peer, Failed> {
        Ok(Peer(SERVER))
    }

    fn send(&mut self, _to: Peer, head: &[u8], body: &[u8]) -> Result<Taken, Failed> {
        let len = head.len() + body.len();
        if len > MOST_LINK_BYTES {
            self.faults = self.faults.saturating_add(1);
            return Err(Failed);
        }
        self.bytes[..head.len()].copy_from_slice(head);
        self.bytes[head.len()..len].copy_from_slice(body);
        self.len = len;
        Ok(Taken::Whole)
    }

    fn recv(&mut self, _out: &mut [u8; MOST_LINK_BYTES]) -> Result<Got, Failed> {
        Ok(Got::Nothing)
    }

    /// Keeps nothing back.
    fn flush(&mut self) {}

    /// Ends at once.
    fn wait(&mut self, _micros: u32) {}

    /// Sends each packet by itself.
    fn pack(&mut self, _peer: Peer, _bytes: u32) {}

    /// The number stays that of its address.
    fn forget(&mut self, _peer: Peer) {}
}

/// The buffers of the call that is over, for the next one.
#[derive(Drop)]
struct Buffers {
    both: Option<(MsgBuf, MsgBuf)>,
    /// How many calls ended with what they asked.
    echoed: u32,
}

impl Continuation for Buffers {
    fn done(&mut self, done: Done) {
        if done.resp.bytes() == ASKED {
            self.echoed = self.echoed.saturating_add(1);
        }
        let Done { req, resp, .. } = done;
        self.both = Some((req, resp));
    }
}

fn make_buffers(memory: &mut Memory) -> Result<Buffers, NoMemory>
    ensures cause { HasCause memory.old memory.new result }
{
    let mut req = MsgBuf::new(memory, ROOM)?;
    req.set_len(ASKED.len() as u32);
    req.write(0, ASKED);
    let resp = MsgBuf::new(memory, ROOM)?;
    Ok(Buffers {
        both: Some((req, resp)),
        echoed: 0,
    })
}

fn plain_node(memory: &mut Memory, me: u8) -> Result<PlainNode, NoMemory>
    ensures cause { HasCause memory.old memory.new result }
{
    let workers = LocalWorkers::new(memory, PlainDuty, USUAL_JOBS)?;
    let (limits, service) = (Limits::usual(), PlainService::new());
    match Endpoint::new(memory, NodeId(me), FIRST, limits, service, workers) {
        Ok(endpoint) => Ok(endpoint),
        Err(_workers) => Err(NoMemory),
    }
}

/// Two endpoints; the first asks the second.
struct Pair {
    memory: Memory,
    client: PlainNode,
    server: PlainNode,
    link: Newest,
    buffers: Buffers,
}

impl Pair {
    fn new(alloc: Global) -> Result<Pair, NoMemory> {
        let mut memory = Memory::new(alloc);
        let client = plain_node(&mut memory, CLIENT)?;
        let server = plain_node(&mut memory, SERVER)?;
        let buffers = make_buffers(&mut memory)?;
        Ok(Pair {
            memory,
            client,
            server,
            link: Newest::new(),
            buffers,
        })
    }

    // Makes both ends of a session, whose numbers are the next ones.
    fn join(&mut self, number: u16) -> bool
        requires { number < SESSION_NUMBERS }
    {
        let session = SessionNo(number);
        let memory = &mut self.memory;
        let here = self
            .client
            .pair_client(memory, Peer(SERVER), FIRST, session, 1, &mut NoRecord);
        if here.is_err() {
            return false;
        }
        let memory = &mut self.memory;
        let there = self
            .server
            .pair_server(memory, Peer(CLIENT), FIRST, session, 1, &mut NoRecord);
        there.is_ok()
    }

    // Asks a call in the buffers of the last one.
    fn ask(&mut self) -> bool {
        let Some((req, resp)) = self.buffers.both.take() else {
            return false;
        };
        let memory = &mut self.memory;
        self.client
            .ask(memory, SessionNo(0), ECHO, req, resp, 0, &mut NoRecord)
            .is_ok()
    }

    fn poll_client(&mut self) {
        let memory = &mut self.memory;
        let link = &mut self.link;
        let _turn = self
            .client
            .poll(memory, 0, link, &mut self.buffers, &mut NoRecord);
    }

    fn poll_server(&mut self) {
        let memory = &mut self.memory;
        let link = &mut self.link;
        let _turn = self
            .server
            .poll(memory, 0, link, &mut self.buffers, &mut NoRecord);
    }

    fn reach_server(&mut self) {
        let _delivery = self
            .server
            .deliver(Peer(CLIENT), self.link.datagram(), &mut NoRecord);
    }

    fn reach_client(&mut self) {
        let _delivery = self
            .client
            .deliver(Peer(SERVER), self.link.datagram(), &mut NoRecord);
    }

    // One call, from asking to its end.
    fn echo(&mut self) -> bool {
        if !self.ask() {
            return false;
        }
        self.poll_client();
        self.reach_server();
        self.poll_server();
        self.reach_client();
        self.poll_client();
        true
    }

    // Lets both endpoints go, and tells how many calls ended with what they asked.
    fn close(self) -> u32 {
        let Pair {
            memory: _memory,
            client,
            server,
            link: _link,
            buffers,
        } = self;
        let _of_client = client.into_workers();
        let _of_server = server.into_workers();
        buffers.echoed
    }
}

/// Runs so many echoes on the first of so many sessions, each of one credit, and tells how many
/// ended with what they asked. `NoMemory` comes where there is no memory for the endpoints or their
/// buffers.
pub fn echo(alloc: Global, calls: u32, sessions: u16) -> Result<u32, NoMemory> {
    let mut pair = Pair::new(alloc)?;
    let mut goes_on = true;
    for number in 0..sessions {
        goes_on = goes_on && pair.join(number);
    }
    for _call in 0..calls {
        goes_on = goes_on && pair.echo();
    }
    Ok(pair.close())
}
