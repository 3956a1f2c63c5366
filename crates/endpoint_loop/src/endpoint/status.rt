//! What an endpoint tells of itself.
ghost use Rattle.std.specs.Prelude.{◌≡◌, ◌≤◌, ◌↔◌, None, IfErr, IsSome, IsTrue, OnOk};
ghost use Rattle.std.specs.List.{find};
ghost use Rattle.node_steps.specs.Due.{IsFirstDue};
ghost use Rattle.node_steps.specs.Status.{IsQuiet, free_told, pending_told};
ghost use Rattle.rpc_laws.specs.Groups.{pair_refusal};
ghost use Rattle.rpc_laws.specs.NodeLists.{limits_of};
ghost use Rattle.rpc_laws.specs.Sessions.{is_client};
ghost use Rattle.session_mgmt.specs.Refusals.{refused};

use crate::endpoint::Endpoint;
use packet_header::Life;
use rpc_base::{Limits, MOST_CREDITS, SessionNo};
use rpc_laws::Counted;
use rpc_outside::Service;
use session_mgmt::ConnectError;
use worker_crew::Workers;

impl<V: Service, W: Workers> Endpoint<V, W> {
    /// Its life, 1 or more.
    pub fn life(&self) -> Life
        ensures life { result ≡ self.now.timed.lists.life }
        ensures some { 1 ≤ result }
    {
        self.node.life()
    }

    /// The limits that it was made with.
    pub fn limits(&self) -> Limits
        ensures { result ≡ limits_of self.now.timed.lists }
    {
        self.node.limits()
    }

    /// Whether there are a number of either kind and room for a session with so many credits, 1 to
    /// 256. `NumbersSpent` comes exactly where 65,535 numbers of a kind were used, and then
    /// `RingFull` exactly where the credits of the live sessions and these are more than the ring
    /// is long. It is never `NoMemory`.
    pub fn pair_room(&self, credits: u16) -> Result<(), ConnectError>
        requires some { 1 ≤ credits }
        requires most { credits ≤ MOST_CREDITS }
        ensures accepted { OnOk result (pair_refusal credits self.now.timed.lists ≡ None) }
        ensures refused { IfErr result
            (λ why. refused why ≡ pair_refusal credits self.now.timed.lists) }
        ensures never_memory { IfErr result (λ why. IsSome (refused why)) }
    {
        self.node.pair_room(credits)
    }

    /// The free credits of a client session. `None` comes exactly where it is neither Connected,
    /// Spent nor Closing.
    pub fn free_credits(&self, session: SessionNo) -> Option<u16>
        ensures { result ≡ free_told (find (is_client session) self.now.timed.lists.clients) }
    {
        self.node.free_credits(session)
    }

    /// How many calls of a client session are active or wait: none where its number was never used.
    pub fn pending(&self, session: SessionNo) -> u64
        ensures { result ≡ pending_told (find (is_client session) self.now.timed.lists.clients) }
    {
        self.node.pending(session)
    }

    /// How many handlers ran, how many jobs were given, and how many datagrams were dropped and
    /// overflowed, since it was made. Each count stops at 2^64 - 1.
    pub fn counts(&self) -> Counted
        ensures { result ≡ self.now.timed.lists.counts }
    {
        self.node.counts()
    }

    /// Its clock, in microseconds: the latest moment of a poll.
    pub fn clock(&self) -> u64
        ensures { result ≡ self.now.timed.clock }
    {
        self.node.clock()
    }

    /// The first moment from its clock on, and up to `until`, both in microseconds, at which
    /// something is due: a session's own request is to be sent or given up, a call times out, or a
    /// queued packet may be sent. None comes exactly where nothing is due up to then.
    pub fn first_due(&self, until: u64) -> Option<u64>
        ensures { IsFirstDue self.now.timed.clock until self.now.timed.lists result }
    {
        self.node.first_due(until)
    }

    /// Whether its rings and its inbox are empty, no packet is queued, and no job is out.
    pub fn quiet(&self) -> bool
        ensures { IsTrue result ↔ IsQuiet self.now.timed.lists }
    {
        self.node.quiet()
    }
}
