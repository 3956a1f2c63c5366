//! Who sent datagrams in a turn.
ghost use Rattle.std.specs.Prelude.{◌≤◌};
ghost use Rattle.endpoint_loop.specs.declared.endpoint.senders.TheConstants.{MOST_SENDERS};

use rpc_base::Peer;

// As many as a turn receives datagrams.
const MOST_SENDERS: usize = 64;

/// The peers from which the datagrams of a turn came, one after another: one whose datagrams came
/// in a row stands there once.
#[derive(Clone, Copy)]
pub(super) struct Senders {
    peers: [Peer; MOST_SENDERS],
    count: usize,
    ghost within: { count ≤ MOST_SENDERS },
}

impl Senders {
    /// Nobody so far.
    pub(super) fn new() -> Senders {
        Senders {
            peers: [Peer(0); MOST_SENDERS],
            count: 0,
        }
    }

    /// A datagram came from this peer.
    pub(super) fn note(&mut self, peer: Peer) {
        let is_last = self.count > 0 && self.peers[self.count - 1] == peer;
        if is_last || self.count >= MOST_SENDERS {
            return;
        }
        self.peers[self.count] = peer;
        self.count += 1;
    }

    /// Those that sent datagrams.
    pub(super) fn peers(&self) -> &[Peer] {
        &self.peers[..self.count]
    }
}
