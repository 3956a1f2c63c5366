//! A poll, step by step.
ghost use Rattle.std.specs.Prelude.{◌≡◌, ◌≤◌, ◌*◌, ◌↔◌, IsTrue, false, IfOk};
ghost use Rattle.node_steps.specs.Changes.{◌⟶◌};
ghost use Rattle.endpoint_loop.specs.Bounds.{bounds};
ghost use Rattle.endpoint_loop.specs.Polls.{Polls, turn_of, turn_told};
ghost use Rattle.rpc_laws.specs.Deliveries.{inbox_room};

use crate::endpoint::Endpoint;
use endpoint_node::{Asking, Continuation, Listening, Sending};
use memory_count::Memory;
use node_control::{hear_all, watch};
use node_poll::{close, finish_all, handle_all, post_sessions, raise_clock, send_all};
use rpc_base::{MOST_RING, SESSION_NUMBERS};
use rpc_outside::{Failed, Link, Recorder, Service};
use std::error::Error;
use std::fmt;
use worker_crew::Workers;

/// A fault of the link.
#[derive(Clone, Copy, Debug, PartialEq, Eq)]
pub struct LinkFault;

impl fmt::Display for LinkFault {
    fn fmt<W: fmt::Write>(&self, f: &mut fmt::Formatter<W>) -> fmt::Result {
        f.write_str("the link failed")
    }
}

impl Error for LinkFault {}

/// What a poll did.
#[derive(Clone, Copy, Debug, PartialEq, Eq)]
pub struct Turn {
    /// How many packets were handled: those of session control, and those of calls that were
    /// taken, answered again or dropped.
    pub handled: u32,
    /// How many packets were sent, those of session control among them.
    pub sent: u32,
    /// Whether packets that may be sent are left, since the link was busy.
    pub busy: bool,
}

impl Turn {
    /// Whether it handled and sent no packet, and left none to be sent.
    pub fn is_idle(&self) -> bool
        ensures { IsTrue result ↔ (self.now ≡ record { handled = 0; sent = 0; busy = false }) }
    {
        self.handled == 0 && self.sent == 0 && !self.busy
    }
}

// What a poll tells, which handled so many packets of calls, by what its steps handed to the link:
// the answers of control packets, the requests of its sessions, and packets of calls.
fn turn_by(
    handled: u32,
    heard: Listening,
    asked: Asking,
    sent: Result<Sending, Failed>,
) -> Result<Turn, LinkFault>
    requires handled { handled ≤ MOST_RING }
    requires heard { heard.heard ≤ inbox_room }
    requires answers { heard.sent ≤ heard.heard }
    requires asked { asked.sent ≤ SESSION_NUMBERS }
    requires sent { IfOk sent (λ s. s.sent ≤ 2 * MOST_RING) }
    ensures { turn_of result ≡ turn_told handled heard asked sent }
{
    if heard.failed || asked.failed {
        return Err(LinkFault);
    }
    match sent {
        Ok(sending) => Ok(Turn {
            handled: heard.heard + handled,
            sent: heard.sent + asked.sent + sending.sent,
            busy: sending.busy,
        }),
        Err(_) => Err(LinkFault),
    }
}

impl<V: Service, W: Workers> Endpoint<V, W> {
    /// Polls the endpoint at the moment `now`, in microseconds: finishes the jobs that workers
    /// finished, handles the control packets of the inbox and the packets of the receive ring,
    /// looks at the timers, begins and posts what its sessions may, sends what is queued, and ends
    /// with a Polled. Its clock doesn't fall. Calls that end go to `k`. A busy link stops the
    /// sending of what is queued. So does a fault of the link; the packet that met it stays in
    /// front of the queue. A control packet that the link doesn't take is gone. `LinkFault` comes
    /// at the end of the poll, exactly where a fault of the link came in it. For each request that
    /// it drops for want of memory, and for each session that starves, memory was refused. No
    /// request of one packet is dropped so, where it is handled inline and its answer fits in one.
    pub fn poll<L: Link, K: Continuation, R: Recorder>(
        &mut self,
        memory: &mut Memory,
        now: u64,
        link: &mut L,
        k: &mut K,
        rec: &mut R,
    ) -> Result<Turn, LinkFault>
        ensures { Polls (bounds R.log K.given V.Service W.Workers) L.Link result now
            (link.old ⟶ link.new) (self.old ⟶ self.new) (rec.old ⟶ rec.new) (k.old ⟶ k.new)
            (memory.old ⟶ memory.new) }
    {
        raise_clock(&mut self.node, now);
        finish_all(&mut self.node, &mut self.workers, rec);
        let heard = hear_all(&mut self.node, memory, link, rec);
        let handled = handle_all(
            &mut self.node,
            memory,
            &mut self.service,
            &mut self.workers,
            k,
            rec,
        );
        let asked = watch(&mut self.node, link, k, rec);
        post_sessions(&mut self.node, rec);
        let sent = send_all(&mut self.node, link, rec);
        close(&mut self.node, rec);
        self.node.sound();
        turn_by(handled, heard, asked, sent)
    }
}
