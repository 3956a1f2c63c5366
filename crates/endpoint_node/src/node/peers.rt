//! With which peers a session is live.
ghost use Rattle.std.specs.Prelude.{◌≡◌, ℕ, true, false, None, IfSome, slice_get};
ghost use Rattle.node_steps.specs.Peers.{calls_to, is_with, serves_to};

use crate::node::Node;
use crate::node::rates::lives;
use rpc_base::Peer;

impl Node {
    // Whether client session `i` is there, live and with this peer.
    fn calls_to(&self, i: usize, peer: Peer) -> bool
        ensures { result ≡ calls_to peer (slice_get self.now.lists.clients i) }
    {
        i < self.store.clients()
            && lives(self.store.state(i))
            && self.store.end_of_client(i).peer == peer
    }

    // Whether a server session stands at place `i`, and is with this peer.
    fn serves_to(&self, i: usize, peer: Peer) -> bool
        ensures { result ≡ serves_to peer (slice_get self.now.lists.servers i) }
    {
        i < self.store.servers() && self.store.peer_of_server(i) == peer
    }

    /// Whether a session stands at this place of the client sessions or of the server sessions that
    /// is live and with this peer.
    pub fn is_with(&self, place: usize, peer: Peer) -> bool
        ensures { result ≡ is_with place peer self.now.lists }
    {
        self.calls_to(place, peer) || self.serves_to(place, peer)
    }

    /// The first such place. None comes exactly where no live session is with this peer.
    pub fn place_with(&self, peer: Peer) -> Option<usize>
        ensures there { IfSome result (λ i. is_with i peer self.now.lists ≡ true) }
        ensures none { result ≡ None → (i : ℕ) → is_with i peer self.now.lists ≡ false }
    {
        let count = self.store.clients().max(self.store.servers());
        'places: for place in 0..count {
            if self.is_with(place, peer) {
                return Some(place);
            }
        }
        None
    }
}
