//! A turn: datagrams are received and delivered, and then the endpoint polls.
ghost use Rattle.std.specs.Prelude.{◌≡◌, is_err};
ghost use Rattle.node_steps.specs.Changes.{◌⟶◌};
ghost use Rattle.endpoint_loop.specs.Bounds.{bounds};
ghost use Rattle.endpoint_loop.specs.Stands.{GoesOn};
ghost use Rattle.endpoint_loop.specs.Turns.{Receives, Turns};
ghost use Rattle.memory_count.specs.Faults.{HasCause};

use crate::endpoint::Endpoint;
use crate::endpoint::poll::{LinkFault, Turn};
use crate::endpoint::senders::Senders;
use endpoint_node::Continuation;
use memory_count::Memory;
use rpc_outside::{Failed, Got, Link, MOST_LINK_BYTES, Recorder, Service};
use worker_crew::Workers;

/// The most datagrams that a turn receives.
pub const MOST_ARRIVALS: u32 = 64;

impl<V: Service, W: Workers> Endpoint<V, W> {
    // Receives datagrams until none waits, at most 64, and delivers each. `Failed` comes exactly
    // where a fault of the link ended it. Who sent them is noted.
    fn receive<L: Link, R: Recorder>(
        &mut self,
        senders: &mut Senders,
        link: &mut L,
        rec: &mut R,
    ) -> Result<(), Failed>
        ensures receives { Receives R.log L.Link (is_err result) self.old self.new rec.old rec.new
            link.old link.new }
        ensures goes_on { GoesOn R.log V.Service W.Workers self.old self.new rec.old rec.new }
        ensures sent { L.sent link.new ≡ L.sent link.old }
        ensures busies { L.busies link.new ≡ L.busies link.old }
        ensures cause { HasCause (L.faults link.old) (L.faults link.new) result }
    {
        let mut out = [0; MOST_LINK_BYTES];
        'datagrams: for _ in 0..MOST_ARRIVALS {
            match link.recv(&mut out)? {
                Got::Nothing => return Ok(()),
                Got::Packet { peer, len } => {
                    senders.note(peer);
                    let _delivery = self.deliver(peer, &out[..len], rec);
                }
            }
        }
        Ok(())
    }

    // A turn, but that it tells who sent datagrams, and the link forgets nobody.
    fn receive_and_poll<L: Link, K: Continuation, R: Recorder>(
        &mut self,
        memory: &mut Memory,
        now: u64,
        senders: &mut Senders,
        link: &mut L,
        k: &mut K,
        rec: &mut R,
    ) -> Result<Turn, LinkFault>
        ensures { Turns (bounds R.log K.given V.Service W.Workers) L.Link result now
            (link.old ⟶ link.new) (self.old ⟶ self.new) (rec.old ⟶ rec.new) (k.old ⟶ k.new)
            (memory.old ⟶ memory.new) }
    {
        let received = self.receive(senders, link, rec);
        let polled = self.poll(memory, now, link, k, rec);
        match received {
            Ok(()) => polled,
            Err(_) => Err(LinkFault),
        }
    }

    /// Takes a turn at the moment `now`, in microseconds: receives datagrams until none waits, at
    /// most 64, delivers each, and polls. A fault of the link ends the receiving, and it polls all
    /// the same. Then, where no datagram is left to be handled, the link forgets each peer from
    /// whom one came and with whom no session is live. What it tells is what the poll told.
    /// `LinkFault` comes at its end, exactly where a fault of the link came in receiving or in the
    /// poll.
    pub fn turn<L: Link, K: Continuation, R: Recorder>(
        &mut self,
        memory: &mut Memory,
        now: u64,
        link: &mut L,
        k: &mut K,
        rec: &mut R,
    ) -> Result<Turn, LinkFault>
        ensures { Turns (bounds R.log K.given V.Service W.Workers) L.Link result now
            (link.old ⟶ link.new) (self.old ⟶ self.new) (rec.old ⟶ rec.new) (k.old ⟶ k.new)
            (memory.old ⟶ memory.new) }
    {
        let mut senders = Senders::new();
        let told = self.receive_and_poll(memory, now, &mut senders, link, k, rec);
        self.leave_strangers(&senders, link);
        told
    }
}
