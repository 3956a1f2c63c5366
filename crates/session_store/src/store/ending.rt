//! The end of a server session.
ghost use Rattle.std.specs.Prelude.{◌≡◌, ◌<◌, length, option_map, slice_get, IfSome};
ghost use Rattle.std.specs.List.{find};
ghost use Rattle.rpc_base.specs.declared.owner.Owner.TheVariants.{Reply};
ghost use Rattle.rpc_laws.specs.Requests.{in_slot_of};
ghost use Rattle.session_store.specs.Changes.{IsDrained};
ghost use Rattle.session_store.specs.Leaving.{EndsServer};

use super::Store;
use rpc_base::Owner;
use session_ends::{code_at, end_at, place_in};

impl Store {
    /// Whose packets the replies to the newest request of a slot, 0 to 7, of the server session at
    /// place `i` are. None comes exactly where no request began there.
    pub fn owner_in_slot(&self, i: usize, slot: u8) -> Option<Owner>
        requires known { i < length self.now.servers }
        requires slot { slot < 8 }
        ensures { IfSome (slice_get self.now.servers i) (λ v. result ≡ option_map
            (λ q. Reply v.way.number q.number) (find (in_slot_of slot) v.slots)) }
    {
        self.servers[i].owner(slot)
    }

    /// The server session at place `i` ends, to none of whose requests a reply is queued: its
    /// buffers leave the pool.
    pub fn end_server(&mut self, i: usize)
        requires known { i < length self.old.servers }
        requires drained { IfSome (slice_get self.old.servers i) (IsDrained self.old.queued) }
        ensures { EndsServer i self.old self.new }
    {
        self.shares -= u32::from(self.servers[i].credits());
        let server = &self.servers[i];
        let code = code_at(
            server.peer(),
            server.life(),
            server.client(),
            server.session(),
        );
        let place = place_in(&self.ends, code);
        self.ends.remove(place);
        end_at(&mut self.servers, i, &mut self.pool);
    }
}
