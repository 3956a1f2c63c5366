//! Peers with whom no session is live: a link may give their numbers to others.
ghost use Rattle.std.specs.Prelude.{◌≡◌, ℕ, true, false};
ghost use Rattle.node_steps.specs.Peers.{is_with};
ghost use Rattle.endpoint_loop.specs.Turns.{HasSession, TellsAsBefore};

use crate::endpoint::Endpoint;
use crate::endpoint::senders::Senders;
use rpc_base::Peer;
use rpc_outside::{Link, Service};
use worker_crew::Workers;

impl<V: Service, W: Workers> Endpoint<V, W> {
    // Whether a live session is with this peer. The place where one stood last is looked at first.
    fn knows(&mut self, peer: Peer) -> bool
        ensures kept { self.new ≡ self.old }
        ensures known { result ≡ true → HasSession peer self.old.timed.lists }
        ensures unknown { result ≡ false → (i : ℕ) → is_with i peer self.old.timed.lists ≡ false }
    {
        let number = usize::from(peer.0);
        if self.node.is_with(self.homes[number], peer) {
            return true;
        }
        match self.node.place_with(peer) {
            Some(place) => {
                self.homes[number] = place;
                true
            }
            None => false,
        }
    }

    // The link forgets this peer, unless a live session is with it.
    fn leave<L: Link>(&mut self, peer: Peer, link: &mut L)
        ensures kept { self.new ≡ self.old }
        ensures tells { TellsAsBefore L.Link link.old link.new }
    {
        if !self.knows(peer) {
            link.forget(peer);
        }
    }

    /// The link forgets each of these peers with whom no session is live, where no datagram is left
    /// to be handled.
    pub(super) fn leave_strangers<L: Link>(&mut self, senders: &Senders, link: &mut L)
        ensures kept { self.new ≡ self.old }
        ensures tells { TellsAsBefore L.Link link.old link.new }
    {
        if !self.node.is_drained() {
            return;
        }
        'senders: for peer in senders.peers() {
            self.leave(*peer, link);
        }
    }
}
