//! What is at the other end of a link: a server in this program, or one that isn't in it.
ghost use Rattle.memory_count.specs.Faults.{HasCause};

use crate::wire::Wire;
use client_core::Done;
use endpoint_loop::{Continuation, Endpoint};
use memory_count::{Memory, NoMemory};
use packet_header::{FIRST_LIFE, Life};
use rpc_base::{Limits, NodeId, USUAL_JOBS};
use rpc_outside::{Link, NoRecord, PlainDuty, PlainService};
use std::net::Net;
use udp_link::UdpLink;
use worker_crew::LocalWorkers;

/// The nanoseconds of a microsecond, in which an endpoint counts.
const MICROSECOND: u64 = 1_000;

/// A link whose other end is in this program.
pub trait Carries: Link {
    /// What was sent here comes to the other end.
    fn carry(&mut self, other: &mut Self);
}

impl<'a, N: Net> Carries for UdpLink<'a, N> {
    /// The system carries it.
    fn carry(&mut self, _other: &mut UdpLink<'a, N>) {}
}

impl Carries for Wire {
    fn carry(&mut self, other: &mut Wire) {
        self.move_to(other);
    }
}

// A server asks no calls, so that none is over.
#[derive(Drop)]
struct NoCalls;

impl Continuation for NoCalls {
    fn done(&mut self, _done: Done) {}
}

/// What is at the other end of a client's link.
pub trait Other<L: Link> {
    /// Whether it is in this program, so that its turns are made here.
    fn is_here(&self) -> bool;

    /// Makes a turn at `now`, in nanoseconds, of which the client hears over its link.
    fn turn(&mut self, memory: &mut Memory, now: u64, client: &mut L);
}

/// Nothing of this program: the server runs by itself.
#[derive(Clone, Copy)]
pub struct Elsewhere;

impl<L: Link> Other<L> for Elsewhere {
    fn is_here(&self) -> bool {
        false
    }

    fn turn(&mut self, _memory: &mut Memory, _now: u64, _client: &mut L) {}
}

/// A server's endpoint with the plain service, and its link.
pub struct Server<L: Carries> {
    endpoint: Endpoint<PlainService, LocalWorkers<PlainDuty>>,
    link: L,
}

// Written by hand, so that whoever lets one go makes a call.
impl<L: Carries + Drop> Drop for Server<L> {
    fn drop(self) {
        let Server {
            endpoint: _endpoint,
            link: _link,
        } = self;
    }
}

impl<L: Carries + Drop> Server<L> {
    /// A server over a link that is bound.
    pub fn new(memory: &mut Memory, link: L) -> Result<Server<L>, NoMemory>
        ensures cause { HasCause memory.old memory.new result }
    {
        let workers = LocalWorkers::new(memory, PlainDuty, USUAL_JOBS)?;
        let (life, service) = (Life(FIRST_LIFE), PlainService::new());
        match Endpoint::new(memory, NodeId(1), life, Limits::usual(), service, workers) {
            Ok(endpoint) => Ok(Server { endpoint, link }),
            Err(_workers) => Err(NoMemory),
        }
    }
}

impl<L: Carries + Drop> Other<L> for Server<L> {
    fn is_here(&self) -> bool {
        true
    }

    fn turn(&mut self, memory: &mut Memory, now: u64, client: &mut L) {
        client.carry(&mut self.link);
        let _turn = self.endpoint.turn(
            memory,
            now / MICROSECOND,
            &mut self.link,
            &mut NoCalls,
            &mut NoRecord,
        );
        self.link.carry(client);
    }
}
