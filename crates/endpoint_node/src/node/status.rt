//! What a node tells of itself.
ghost use Rattle.node_laws.specs.NodeRun.{IsCredits};
ghost use Rattle.std.specs.Prelude.{◌≡◌, ◌≤◌, ◌↔◌, None, IfErr, IsSome, IsTrue, OnOk, length};
ghost use Rattle.std.specs.List.{find};
ghost use Rattle.node_steps.specs.Status.{IsDrained, IsQuiet, free_told, pending_told};
ghost use Rattle.rpc_laws.specs.Groups.{pair_refusal};
ghost use Rattle.rpc_laws.specs.NodeLists.{limits_of};
ghost use Rattle.rpc_laws.specs.Sessions.{is_client};
ghost use Rattle.session_mgmt.specs.Refusals.{refused};

use crate::node::Node;
use packet_header::Life;
use rpc_base::{Limits, MOST_CREDITS, NodeId, SESSION_NUMBERS, SessionNo, SessionState};
use rpc_laws::Counted;
use session_mgmt::ConnectError;

impl Node {
    /// Its life, 1 or more.
    pub fn life(&self) -> Life
        ensures life { result ≡ self.now.lists.life }
        ensures some { 1 ≤ result }
    {
        self.life
    }

    /// The limits that it was made with.
    pub fn limits(&self) -> Limits
        ensures { result ≡ limits_of self.now.lists }
    {
        Limits {
            ring: self.rx.size(),
            jobs: self.limits.jobs,
            timeout: self.limits.timeout,
        }
    }

    /// Whether there are a number of either kind and room for a session with so many credits, 1 to
    /// 256. `NumbersSpent` comes exactly where 65,535 numbers of a kind were used, and then
    /// `RingFull` exactly where the credits of the live sessions and these are more than the ring
    /// is long. It is never `NoMemory`.
    pub fn pair_room(&self, credits: u16) -> Result<(), ConnectError>
        requires credits { IsCredits credits }
        ensures accepted { OnOk result (pair_refusal credits self.now.lists ≡ None) }
        ensures refused { IfErr result (λ why. refused why ≡ pair_refusal credits self.now.lists) }
        ensures never_memory { IfErr result (λ why. IsSome (refused why)) }
    {
        let clients_spent = usize::from(SESSION_NUMBERS) <= self.store.clients();
        let servers_spent = u64::from(SESSION_NUMBERS) <= self.server_numbers;
        self.room_for(clients_spent || servers_spent, credits)
    }

    /// The free credits of a client session. `None` comes exactly where it is neither Connected,
    /// Spent nor Closing.
    pub fn free_credits(&self, session: SessionNo) -> Option<u16>
        ensures { result ≡ free_told (find (is_client session) self.now.lists.clients) }
    {
        let i = usize::from(session.0);
        if i >= self.store.clients() {
            return None;
        }
        match self.store.state(i) {
            SessionState::Connected | SessionState::Spent | SessionState::Closing => {
                Some(self.store.free(i))
            }
            _ => None,
        }
    }

    /// How many calls of a client session are active or wait: none where its number was never used.
    pub fn pending(&self, session: SessionNo) -> u64
        ensures { result ≡ pending_told (find (is_client session) self.now.lists.clients) }
    {
        let i = usize::from(session.0);
        if i >= self.store.clients() {
            return 0;
        }
        self.store.pending(i)
    }

    /// Whether its ring and its inbox are empty.
    pub fn is_drained(&self) -> bool
        ensures { IsTrue result ↔ IsDrained self.now.lists }
    {
        self.rx.is_empty() && self.inbox.is_empty()
    }

    /// Whether its rings and its inbox are empty, no packet is queued, and no job is out.
    pub fn quiet(&self) -> bool
        ensures { IsTrue result ↔ IsQuiet self.now.lists }
    {
        self.rx.is_empty()
            && self.inbox.is_empty()
            && self.store.queued() == 0
            && self.jobs.is_empty()
    }

    /// The number of the node.
    pub fn me(&self) -> NodeId
        ensures { result ≡ self.now.lists.me }
    {
        self.me
    }

    /// How many numbers of client sessions were used: the number of the next one.
    pub fn clients(&self) -> u32
        ensures { result ≡ length self.now.lists.clients }
    {
        self.store.clients() as u32
    }

    /// How many numbers of server sessions were used: the number of the next one.
    pub fn server_numbers(&self) -> u64
        ensures { result ≡ self.now.lists.server_numbers }
    {
        self.server_numbers
    }

    /// How many handlers ran, how many jobs were given, and how many datagrams were dropped and
    /// overflowed, since it was made. Each count stops at 2^64 - 1.
    pub fn counts(&self) -> Counted
        ensures { result ≡ self.now.lists.counts }
    {
        self.counts
    }
}
