//! Where datagrams go and where they come from.
ghost use Rattle.std.specs.Prelude.{◌≡◌, ℕ, List, [], ◌++◌, Option, IfOk, IfSome, OnOk, OnErr};
ghost use Rattle.memory_count.specs.Faults.{HasCause, HasRisen};
ghost use Rattle.rpc_outside.specs.declared.link.Got.TheVariants.{Nothing};
ghost use Rattle.rpc_outside.specs.declared.link.Taken.TheVariants.{Whole, Busy};
ghost use Rattle.rpc_outside.specs.Linking.{Carried, Comes, IfPacket, KeepsAddresses, NoneComes};
ghost use Rattle.rpc_outside.specs.Linking.{OthersKeep, with_last};

use crate::failed::Failed;
use rpc_base::Peer;

/// The bytes of the largest datagram that a link gives out.
pub const MOST_LINK_BYTES: usize = 2_048;

/// What a link did with the datagram that it was handed.
#[derive(Clone, Copy, Debug, PartialEq, Eq)]
pub enum Taken {
    /// It sent the datagram.
    Whole,
    /// It could not take the datagram now, and sent nothing.
    Busy,
}

/// What came to a link.
#[derive(Clone, Copy, Debug, PartialEq, Eq)]
pub enum Got {
    /// A datagram of `len` bytes, at most 2,048, from this peer.
    Packet { peer: Peer, len: usize },
    /// No datagram.
    Nothing,
}

/// Sends datagrams, and gives out those that came.
pub trait Link {
    // The datagrams that were sent, where the link tells them.
    ghost sent: { Self → Option (List Carried) };

    // The datagrams that were given out, where the link tells them.
    ghost received: { Self → Option (List Carried) };

    // The datagrams that came and were not given out, where the link tells them.
    ghost waiting: { Self → Option (List Carried) };

    // The bytes of the address that was bound last, where the link tells it.
    ghost bound: { Self → Option (List ℕ) };

    // The number that `peer` told last of an address of these bytes, where the link tells it.
    ghost numbers: { Self → List ℕ → Option ℕ };

    // How many calls failed so far.
    ghost faults: { Self → ℕ };

    // How many sends were answered Busy so far.
    ghost busies: { Self → ℕ };

    /// Takes this address for the link's own. `Failed` comes only where the link counts one more
    /// fault, as for an address that it can't read or reach.
    fn bind(&mut self, addr: &str) -> Result<(), Failed>
        ensures bound { OnOk result (IfSome (bound self.new) (λ bytes. bytes ≡ addr.now)) }
        ensures unbound { OnErr result (bound self.new ≡ bound self.old) }
        ensures numbers { numbers self.new ≡ numbers self.old }
        ensures sent { sent self.new ≡ sent self.old }
        ensures lists { NoneComes waiting received self.old self.new }
        ensures busies { busies self.new ≡ busies self.old }
        ensures cause { HasCause (faults self.old) (faults self.new) result };

    /// Tells by which number the link knows the peer of this address. `Failed` comes only where the
    /// link counts one more fault, as for an address that it can't read or reach.
    fn peer(&mut self, addr: &str) -> Result<Peer, Failed>
        ensures number { IfOk result (λ peer.
            IfSome (numbers self.new addr.now) (λ number. number ≡ peer)) }
        ensures others { OthersKeep addr.now (numbers self.old) (numbers self.new) }
        ensures unknown { OnErr result (numbers self.new ≡ numbers self.old) }
        ensures bound { bound self.new ≡ bound self.old }
        ensures sent { sent self.new ≡ sent self.old }
        ensures lists { NoneComes waiting received self.old self.new }
        ensures busies { busies self.new ≡ busies self.old }
        ensures cause { HasCause (faults self.old) (faults self.new) result };

    /// Sends head and body as one datagram, or nothing where it answers Busy or `Failed`. Busy
    /// comes only where the link counts one more busy answer, and `Failed` only where it counts one
    /// more fault.
    fn send(&mut self, to: Peer, head: &[u8], body: &[u8]) -> Result<Taken, Failed>
        ensures whole { IfOk result (λ t. t ≡ Whole
            → (sent self.new ≡ with_last (to, head.now ++ body.now) (sent self.old))
            × (busies self.new ≡ busies self.old)) }
        ensures busy { IfOk result (λ t. t ≡ Busy → (sent self.new ≡ sent self.old)
            × HasRisen (busies self.old) (busies self.new)) }
        ensures fault { OnErr result ((sent self.new ≡ sent self.old)
            × (busies self.new ≡ busies self.old)) }
        ensures lists { NoneComes waiting received self.old self.new }
        ensures addresses { KeepsAddresses bound numbers self.old self.new }
        ensures cause { HasCause (faults self.old) (faults self.new) result };

    /// Gives out the datagram that waits longest: its bytes become the front of `out`. Nothing
    /// comes, where the link tells what waits, only where no datagram does. `Failed` comes only
    /// where the link counts one more fault.
    fn recv(&mut self, out: &mut [u8; MOST_LINK_BYTES]) -> Result<Got, Failed>
        ensures packet { IfOk result (λ got. IfPacket got
            (Comes waiting received self.old self.new out.new)) }
        ensures nothing { IfOk result (λ got. got ≡ Nothing
            → NoneComes waiting received self.old self.new) }
        ensures end { IfOk result (λ got. got ≡ Nothing
            → IfSome (waiting self.old) (λ ds. ds ≡ [])) }
        ensures fault { OnErr result (NoneComes waiting received self.old self.new) }
        ensures sent { sent self.new ≡ sent self.old }
        ensures busies { busies self.new ≡ busies self.old }
        ensures addresses { KeepsAddresses bound numbers self.old self.new }
        ensures cause { HasCause (faults self.old) (faults self.new) result };

    /// Hands on what the link kept back of the datagrams that it took. What fails in it shows at a
    /// later call.
    fn flush(&mut self)
        ensures sent { sent self.new ≡ sent self.old }
        ensures lists { NoneComes waiting received self.old self.new }
        ensures addresses { KeepsAddresses bound numbers self.old self.new }
        ensures faults { faults self.new ≡ faults self.old }
        ensures busies { busies self.new ≡ busies self.old };

    /// Ends when a datagram may be there to be given out, or after so many microseconds. What fails
    /// in it shows at a later call.
    fn wait(&mut self, micros: u32)
        ensures sent { sent self.new ≡ sent self.old }
        ensures lists { NoneComes waiting received self.old self.new }
        ensures addresses { KeepsAddresses bound numbers self.old self.new }
        ensures faults { faults self.new ≡ faults self.old }
        ensures busies { busies self.new ≡ busies self.old };

    /// From now on packets to this peer may go several in one datagram of at most so many bytes.
    fn pack(&mut self, peer: Peer, bytes: u32)
        ensures sent { sent self.new ≡ sent self.old }
        ensures lists { NoneComes waiting received self.old self.new }
        ensures addresses { KeepsAddresses bound numbers self.old self.new }
        ensures faults { faults self.new ≡ faults self.old }
        ensures busies { busies self.new ≡ busies self.old };

    /// The number of this peer may be given to another address.
    fn forget(&mut self, peer: Peer)
        ensures sent { sent self.new ≡ sent self.old }
        ensures lists { NoneComes waiting received self.old self.new }
        ensures addresses { KeepsAddresses bound numbers self.old self.new }
        ensures faults { faults self.new ≡ faults self.old }
        ensures busies { busies self.new ≡ busies self.old };
}
