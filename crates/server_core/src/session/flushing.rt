//! The replies to an older request are taken out of the transmit ring before a newer one begins.
ghost use Rattle.std.specs.Prelude.{◌≡◌, IfSome};
ghost use Rattle.buffer_pool.specs.Pool.{spare_of};
ghost use Rattle.packet_rings.specs.Rings.{ring};
ghost use Rattle.rpc_outside.specs.Recording.{Grew};
ghost use Rattle.server_core.specs.Counting.{IsCounted};
ghost use Rattle.server_core.specs.Flushing.{HoldsReplies, flushed_facts, without_newest};
ghost use Rattle.server_core.specs.Flushing.{without_replies};
ghost use Rattle.server_core.specs.KeepsPool.{KeepsPool};
ghost use Rattle.server_core.specs.Serving.{IsUnheld};
ghost use Rattle.server_core.specs.Session.{newest};
ghost use Rattle.server_core.specs.Shown.{shown};
ghost use Rattle.server_core.specs.Keeping.{KeepsPlaces, KeepsReplies};

use super::ServerSession;
use buffer_pool::BufferPool;
use packet_rings::TxRing;
use rpc_base::{Event, RequestNo, Who};
use rpc_outside::Recorder;

impl ServerSession {
    // Takes the queued replies to the newest request of the slot of this number out of the ring,
    // the least number first, gives their references up, and notes each. The ring is looked at only
    // as long as one is left.
    #[inline(always)]
    pub(super) fn flush_older<R: Recorder>(
        &self,
        pool: &mut BufferPool,
        tx: &mut TxRing,
        request: RequestNo,
        who: &Who,
        rec: &mut R,
    )
        requires keeps_pool { KeepsPool pool.old self.now.slots }
        requires queued { IfSome (newest request self.now)
            (HoldsReplies self.now.number pool.old tx.old.items) }
        requires counted { IfSome (newest request self.now)
            (IsCounted self.now.number tx.old.items) }
        ensures ring { tx.new ≡ ring
            (without_replies self.now.number (newest request self.now) tx.old.items) tx.old.size }
        ensures noted { Grew (R.log rec.old) (R.log rec.new)
            (flushed_facts who.now self.now.number (newest request self.now) tx.old.items) }
        ensures unheld { IfSome (newest request self.now) (IsUnheld pool.new) }
        ensures shown { shown pool.new self.now ≡ shown pool.old self.now }
        ensures bufs { pool.new.bufs ≡ pool.old.bufs }
        ensures spare { spare_of pool.new ≡ spare_of pool.old }
        ensures places { KeepsPlaces self.now self.now pool.old pool.new }
        ensures replies { KeepsReplies tx.old.items tx.new.items self.now
            (without_newest request self.now) pool.old pool.new }
    {
        let Some(older) = self.slots.of_slot(request.slot()) else {
            return;
        };
        let mut left = older.queued;
        while left > 0 {
            let Some(entry) = tx.flush(older.owner(self.number)) else {
                unreachable!()
            };
            left -= 1;
            pool.release_at(entry.place);
            let flushed = Event::Flushed {
                owner: older.owner(self.number),
                number: entry.number,
            };
            rec.note(*who, flushed, &[], &[]);
        }
    }
}
