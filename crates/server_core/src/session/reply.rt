//! The replies to the packets of a request: what they are, and what becomes of their references.
ghost use Rattle.packet_header.specs.Header.{AreBytes};
ghost use Rattle.rpc_laws.specs.Packets.{IsSpelled};
ghost use Rattle.server_core.specs.Keeping.{LeavesReply};
ghost use Rattle.server_core.specs.Replies.{packet_of};
ghost use Rattle.server_core.specs.Wanting.{IsPosted, MayLeave};

use super::ServerSession;
use buffer_pool::BufferPool;
use packet_header::{Packet, count, encode};
use packet_rings::Entry;
use rpc_base::HEAD_BYTES;

impl ServerSession {
    /// Writes the header of an entry that was posted, and lends its body.
    pub fn packet<'a>(
        &self,
        pool: &'a BufferPool,
        entry: &Entry,
        head: &mut [u8; HEAD_BYTES],
    ) -> &'a [u8]
        requires { IsPosted entry.now self.now pool.now }
        ensures spelled { IsSpelled (packet_of pool.now self.now entry.now) head.new result.now }
        ensures bytes { AreBytes head.new }
    {
        let Some(request) = self.slots.of_owner(self.number, entry.owner) else {
            unreachable!()
        };
        let header = request.head(self.client, self.life, entry.number);
        encode(&Packet::Message(header), head);
        match entry.place {
            None => &[],
            Some(place) => {
                let part = u32::from(entry.number) + 1 - count(request.size);
                pool.get(place).packet(part).1
            }
        }
    }

    /// An entry that was posted is sent: its reference is given up.
    pub fn sent(&mut self, pool: &mut BufferPool, entry: &Entry)
        requires { MayLeave entry.now self.old pool.old }
        ensures { LeavesReply entry.now self.old self.new pool.old pool.new }
    {
        pool.release_at(entry.place);
        self.slots.leave(self.number, entry.owner);
    }

    /// An entry that was posted is taken out unsent: its reference is given up.
    pub fn flushed(&mut self, pool: &mut BufferPool, entry: &Entry)
        requires { MayLeave entry.now self.old pool.old }
        ensures { LeavesReply entry.now self.old self.new pool.old pool.new }
    {
        self.sent(pool, entry);
    }
}
