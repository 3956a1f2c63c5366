//! The credits of the live sessions, which are counted as sessions come and go.
ghost use Rattle.std.specs.Prelude.{◌≡◌, ◌≤◌, ◌+◌, ◌^◌, length, sum_by};
ghost use Rattle.rpc_laws.specs.Groups.{live_credits};

use super::Store;
use rpc_base::MOST_CREDITS;

impl Store {
    /// The credits of the live sessions, of both kinds.
    pub fn shares(&self) -> u32
        ensures { result ≡ sum_by live_credits self.now.clients
            + sum_by (λ v. v.credits) self.now.servers }
    {
        self.shares
    }

    // The credits of the live sessions with those of one session more.
    pub(super) fn shares_with(&self, credits: u16) -> u32
        requires most { credits ≤ MOST_CREDITS }
        ensures { result ≡ sum_by live_credits self.now.clients
            + sum_by (λ v. v.credits) self.now.servers + credits }
    {
        self.few();
        self.shares + u32::from(credits)
    }

    // There are no more sessions of either kind than numbers of 16 bits.
    fn few(&self)
        ensures clients { length self.now.clients ≤ 2 ^ 16 }
        ensures servers { length self.now.servers ≤ 2 ^ 16 }
    {
        let _clients = self.clients();
        if let Some(last) = self.servers.last() {
            let _number = last.session();
        }
    }
}
