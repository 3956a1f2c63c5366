//! The greatest life that a node knows of each peer.
ghost use Rattle.std.specs.Prelude.{◌≡◌};
ghost use Rattle.rpc_laws.specs.Lives.{known_life, no_lives, raised};

use packet_header::Life;
use rpc_base::{PEERS, Peer};
use std::marker::Model;

/// The greatest known life of each peer, 0 where none is known. It takes no memory of its own.
#[derive(Drop)]
pub struct KnownLives {
    lives: [Life; PEERS],
}

impl Model for KnownLives {
    ghost use Rattle.std.specs.Prelude.{ℕ, List};

    ghost Value = { List ℕ };

    ghost view = { λ k. k.lives };
}

impl KnownLives {
    /// No life of any peer is known.
    pub fn new() -> KnownLives
        ensures { result ≡ no_lives }
    {
        KnownLives {
            lives: [Life(0); PEERS],
        }
    }

    /// The greatest life of a peer that is known, 0 where none is.
    pub fn of(&self, peer: Peer) -> Life
        ensures { result ≡ known_life peer self.now }
    {
        self.lives[usize::from(peer.0)]
    }

    /// A life of a peer comes to be known: the greatest is kept.
    pub fn raise(&mut self, peer: Peer, life: Life)
        ensures { self.new ≡ raised peer life self.old }
    {
        let known = self.of(peer);
        if known.0 < life.0 {
            self.lives[usize::from(peer.0)] = life;
        }
    }
}
