//! An endpoint with the link, the recorder and the continuation that it works with.
ghost use Rattle.std.specs.Prelude.{◌≤◌, OnOk};
ghost use Rattle.rpc_base.specs.declared.limits.TheConstants.{MOST_CREDITS};

use crate::differs::Differs;
use crate::kept::Kept;
use endpoint_loop::{Delivery, Endpoint, LinkFault, Refused, Turn};
use memory_count::Memory;
use message_buffer::MsgBuf;
use packet_header::{FIRST_LIFE, Life};
use rpc_base::{
    CallNo, LEAST_RING, Limits, MOST_CREDITS, Peer, SESSION_NUMBERS, SessionNo, USUAL_JOBS,
    USUAL_TIMEOUT,
};
use rpc_outside::{MemLink, MemRecorder, Service};
use session_mgmt::ConnectError;
use worker_crew::Workers;

/// The limits of each endpoint: a ring of 32 places, and what is usual else.
pub const LIMITS: Limits = Limits {
    ring: LEAST_RING,
    jobs: USUAL_JOBS,
    timeout: USUAL_TIMEOUT,
};

/// The life of each endpoint.
pub const FIRST: Life = Life(FIRST_LIFE);

/// What an endpoint answers to a session that is made.
pub type Made = Result<SessionNo, ConnectError>;

/// An endpoint at work.
pub struct Bench<V: Service, W: Workers> {
    pub memory: Memory,
    pub endpoint: Endpoint<V, W>,
    /// The other node.
    pub peer: Peer,
    pub link: MemLink,
    pub recorder: MemRecorder,
    pub kept: Kept,
}

// Written by hand, so that whoever lets one go makes a call, and proves nothing of its parts.
impl<V: Service + Drop, W: Workers + Drop> Drop for Bench<V, W> {
    fn drop(self) {
        let Bench {
            memory: _memory,
            endpoint: _endpoint,
            peer: _,
            link: _link,
            recorder: _recorder,
            kept: _kept,
        } = self;
    }
}

// Goes on where these are credits of a session.
fn expect_credits(credits: u16) -> Result<(), Differs>
    ensures some { OnOk result (1 ≤ credits) }
    ensures most { OnOk result (credits ≤ MOST_CREDITS) }
{
    if credits == 0 || MOST_CREDITS < credits {
        return Err(Differs::Step);
    }
    Ok(())
}

impl<V: Service, W: Workers> Bench<V, W> {
    /// One over this link, which noted nothing so far. Its peer is the other node.
    pub fn over(
        memory: Memory,
        endpoint: Endpoint<V, W>,
        peer: Peer,
        link: MemLink,
    ) -> Bench<V, W> {
        let alloc = memory.alloc();
        Bench {
            memory,
            endpoint,
            peer,
            link,
            recorder: MemRecorder::new(alloc),
            kept: Kept::new(alloc),
        }
    }

    /// Makes the client end of a session with this server.
    pub fn pair_client(
        &mut self,
        peer: Peer,
        life: Life,
        server: SessionNo,
        credits: u16,
    ) -> Result<Made, Differs> {
        expect_credits(credits)?;
        if SESSION_NUMBERS <= server.0 || life.0 == 0 {
            return Err(Differs::Step);
        }
        let memory = &mut self.memory;
        let rec = &mut self.recorder;
        Ok(
            self.endpoint
                .pair_client(memory, peer, life, server, credits, rec),
        )
    }

    /// Makes the server end of a session with this client.
    pub fn pair_server(
        &mut self,
        peer: Peer,
        life: Life,
        client: SessionNo,
        credits: u16,
    ) -> Result<Made, Differs> {
        expect_credits(credits)?;
        if SESSION_NUMBERS <= client.0 || life.0 == 0 {
            return Err(Differs::Step);
        }
        let memory = &mut self.memory;
        let rec = &mut self.recorder;
        Ok(
            self.endpoint
                .pair_server(memory, peer, life, client, credits, rec),
        )
    }

    /// Opens a session at the moment 0.
    pub fn connect(&mut self, peer: Peer, credits: u16) -> Result<Made, Differs> {
        expect_credits(credits)?;
        let memory = &mut self.memory;
        let rec = &mut self.recorder;
        Ok(self.endpoint.connect(memory, peer, credits, 0, rec))
    }

    /// Asks a call.
    pub fn ask(
        &mut self,
        session: SessionNo,
        req_type: u8,
        req: MsgBuf,
        resp: MsgBuf,
        tag: u64,
    ) -> Result<CallNo, Refused> {
        let memory = &mut self.memory;
        let rec = &mut self.recorder;
        self.endpoint
            .ask(memory, session, req_type, req, resp, tag, rec)
    }

    /// A datagram of this node comes.
    pub fn deliver(&mut self, peer: Peer, bytes: &[u8]) -> Delivery {
        self.endpoint.deliver(peer, bytes, &mut self.recorder)
    }

    /// Polls the endpoint at this moment.
    pub fn poll(&mut self, now: u64) -> Result<Turn, LinkFault> {
        self.endpoint.poll(
            &mut self.memory,
            now,
            &mut self.link,
            &mut self.kept,
            &mut self.recorder,
        )
    }

    /// Takes a turn at the moment 0.
    pub fn turn(&mut self) -> Result<Turn, LinkFault> {
        self.endpoint.turn(
            &mut self.memory,
            0,
            &mut self.link,
            &mut self.kept,
            &mut self.recorder,
        )
    }
}
