//! An endpoint that is its own peer: what it sends comes back to it, so that it answers its own
//! calls.
ghost use Rattle.std.specs.Prelude.{◌≡◌, ◌≤◌, IfSome};
ghost use Rattle.memory_count.specs.Faults.{HasCause};
ghost use Rattle.message_buffer.specs.Buffer.{capacity_of};

use client_core::{Done, Outcome};
use endpoint_loop::{Continuation, Endpoint, Refused};
use memory_count::{Memory, NoMemory};
use message_buffer::MsgBuf;
use packet_header::{FIRST_LIFE, Life};
use rpc_base::{LEAST_RING, Limits, NodeId, Peer, SessionNo, USUAL_JOBS, USUAL_TIMEOUT};
use rpc_outside::{MemLink, NoRecord, PlainDuty, PlainService};
use std::alloc::Global;
use worker_crew::LocalWorkers;

/// The type of the plain service that answers with what it was asked.
const ECHO: u8 = 1;

/// The bytes of each call.
pub const ASKED: u32 = 5;

const ME: u8 = 0;

/// The life of each endpoint.
pub const FIRST: Life = Life(FIRST_LIFE);

pub const LIMITS: Limits = Limits {
    ring: LEAST_RING,
    jobs: USUAL_JOBS,
    timeout: USUAL_TIMEOUT,
};

pub type PlainEndpoint = Endpoint<PlainService, LocalWorkers<PlainDuty>>;

/// An endpoint of its own, of this node.
pub fn plain_endpoint(memory: &mut Memory, me: NodeId) -> Result<PlainEndpoint, NoMemory>
    ensures cause { HasCause memory.old memory.new result }
{
    let workers = LocalWorkers::new(memory, PlainDuty, USUAL_JOBS)?;
    let service = PlainService::new();
    match Endpoint::new(memory, me, FIRST, LIMITS, service, workers) {
        Ok(endpoint) => Ok(endpoint),
        Err(_workers) => Err(NoMemory),
    }
}

/// The call that ended last.
#[derive(Drop)]
struct Newest {
    done: Option<Done>,
}

impl Continuation for Newest {
    fn done(&mut self, done: Done) {
        self.done = Some(done);
    }
}

/// An endpoint with its link, and the buffer for its answers. It ends by `close`.
pub struct Caller {
    memory: Memory,
    endpoint: PlainEndpoint,
    link: MemLink,
    newest: Newest,
    resp: Option<MsgBuf>,
    /// How many datagrams came back.
    carried: u32,
}

impl Caller {
    /// One that makes at most so many calls.
    pub fn new(alloc: Global, calls: u16) -> Result<Caller, NoMemory> {
        let mut memory = Memory::new(alloc);
        let resp = MsgBuf::new(&mut memory, ASKED)?;
        let room = 2 * u32::from(calls);
        let link = MemLink::new(
            &mut memory,
            Vec::new(alloc),
            room,
            Vec::new(alloc),
            Vec::new(alloc),
        )?;
        let endpoint = plain_endpoint(&mut memory, NodeId(ME))?;
        Ok(Caller {
            memory,
            endpoint,
            link,
            newest: Newest { done: None },
            resp: Some(resp),
            carried: 0,
        })
    }

    /// Makes both ends of session 0.
    pub fn pair(&mut self) -> bool {
        let memory = &mut self.memory;
        let here = self
            .endpoint
            .pair_client(memory, Peer(ME), FIRST, SessionNo(0), 1, &mut NoRecord);
        let memory = &mut self.memory;
        let there = self
            .endpoint
            .pair_server(memory, Peer(ME), FIRST, SessionNo(0), 1, &mut NoRecord);
        here.is_ok() && there.is_ok()
    }

    // Asks a call with this buffer, which comes back where it is refused.
    fn ask(&mut self, req: MsgBuf) -> Option<MsgBuf> {
        let Some(resp) = self.resp.take() else {
            return Some(req);
        };
        let memory = &mut self.memory;
        let asked = self
            .endpoint
            .ask(memory, SessionNo(0), ECHO, req, resp, 0, &mut NoRecord);
        match asked {
            Ok(_call) => None,
            Err(refused) => {
                let Refused { req, resp, .. } = refused;
                self.resp = Some(resp);
                Some(req)
            }
        }
    }

    fn poll(&mut self) {
        let memory = &mut self.memory;
        let link = &mut self.link;
        let _turn = self
            .endpoint
            .poll(memory, 0, link, &mut self.newest, &mut NoRecord);
    }

    // The datagram that was sent last comes back.
    fn carry(&mut self) {
        if let Some((_to, bytes)) = self.link.sent(self.carried) {
            let _delivery = self.endpoint.deliver(Peer(ME), bytes, &mut NoRecord);
            self.carried = self.carried.saturating_add(1);
        }
    }

    // The buffer of the call that ended, if it ended well with these bytes.
    fn end(&mut self, asked: &[u8]) -> Option<MsgBuf> {
        let Done {
            outcome,
            req,
            resp,
            ..
        } = self.newest.done.take()?;
        let is_echo = outcome == Outcome::Ok && resp.bytes() == asked;
        self.resp = Some(resp);
        is_echo.then_some(req)
    }

    /// Makes a call that asks these bytes with this buffer. Tells the buffer that its end handed
    /// back, where it ended well and answered these bytes.
    pub fn call(&mut self, req: MsgBuf, asked: &[u8; ASKED as usize]) -> Option<MsgBuf>
        requires room { ASKED ≤ capacity_of req }
    {
        let mut req = req;
        req.set_len(ASKED);
        req.write(0, asked);
        if let Some(back) = self.ask(req) {
            let _refused = back;
            return None;
        }
        self.poll();
        self.carry();
        self.poll();
        self.carry();
        self.poll();
        self.end(asked)
    }

    /// Lets all of it go.
    pub fn close(self) {
        let Caller {
            memory: _memory,
            endpoint,
            link: _link,
            newest: _newest,
            resp: _resp,
            carried: _,
        } = self;
        let _workers = endpoint.into_workers();
    }
}
