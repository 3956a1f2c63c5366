//! The queue: its front is sent, packets are taken out unsent, and what is due is made ready.
ghost use Rattle.std.specs.Prelude.{◌≡◌, ◌≢◌, ◌<◌, ◌↔◌, [], drop, length, option_map, IfNone};
ghost use Rattle.std.specs.Prelude.{IfSome, IsTrue, map};
ghost use Rattle.rpc_base.specs.Least.{least, without_least};
ghost use Rattle.rpc_base.specs.declared.owner.Owner.TheVariants.{Ask, Reply as OfReply};
ghost use Rattle.rpc_laws.specs.Pacing.{line};
ghost use Rattle.rpc_laws.specs.Queues.{made_ready, replies};
ghost use Rattle.session_store.specs.Joined.{without_due};
ghost use Rattle.session_store.specs.Leaving.{ChangesQueue, ChangesQueued};
ghost use Rattle.session_store.specs.Queue.{IsFront, SendsFront};
ghost use Rattle.session_ends.specs.Joined.{is_owned, queued_number, queued_of};

use super::Store;
use packet_rings::Entry;
use rpc_base::{HEAD_BYTES, Owner, RequestNo, SessionNo};
use session_ends::{
    Front, flushed_at, packet_at, reply_at, reply_flushed_at, reply_sent_at, sent_at,
};

impl Store {
    /// The packet in front of the queue where it may be sent at `now`, in microseconds: it is
    /// ready, or due by then. Its header is written into `head`, and its body is lent. None comes
    /// exactly where nothing that is queued may be sent.
    pub fn front<'a>(&'a self, now: u64, head: &mut [u8; HEAD_BYTES]) -> Option<Front<'a>>
        ensures front { IfSome result (λ f. IsFront now self.now f.entry head.new f.body.now) }
        ensures none { IfNone result (line now self.now.queued ≡ []) }
    {
        let Some(entry) = self.queue.front(now) else {
            return None;
        };
        match &entry.owner {
            Owner::Ask { session, .. } => {
                let body = packet_at(
                    &self.sides,
                    usize::from(session.0),
                    &self.pool,
                    &entry,
                    head,
                );
                Some(Front { entry, body })
            }
            Owner::Reply { session, .. } => {
                let body = reply_at(&self.servers, *session, &self.pool, &entry, head);
                Some(Front { entry, body })
            }
            Owner::Control => unreachable!(),
        }
    }

    /// Whether nothing that is queued may be sent at `now`, in microseconds.
    pub fn rests(&self, now: u64) -> bool
        ensures { IsTrue result ↔ (line now self.now.queued ≡ []) }
    {
        match self.queue.front(now) {
            Some(_first) => false,
            None => true,
        }
    }

    /// How many packets are queued.
    pub fn queued(&self) -> u32
        ensures { result ≡ length self.now.queued }
    {
        self.queue.tx.len() + self.queue.pacer.len()
    }

    /// How many replies are queued.
    pub fn replies(&self) -> u32
        ensures { result ≡ replies self.now.queued }
    {
        self.queue.tx.replies()
    }

    /// The entry in front of the queue was sent at `now`, in microseconds.
    pub fn sent(&mut self, now: u64)
        requires some { self.old.queued ≢ [] }
        ensures { ChangesQueue (SendsFront now self.old.queued) (drop 1) self.old self.new }
    {
        let Some(entry) = self.queue.pop(now) else {
            unreachable!()
        };
        match &entry.owner {
            Owner::Ask { session, .. } => {
                sent_at(
                    &mut self.sides,
                    usize::from(session.0),
                    &mut self.pool,
                    &entry,
                    now,
                );
            }
            Owner::Reply { session, .. } => {
                reply_sent_at(&mut self.servers, *session, &mut self.pool, &entry);
            }
            Owner::Control => unreachable!(),
        }
    }

    /// Takes the queued packet of least number of a call of session `i` out, unsent. None comes
    /// exactly where none of it is queued.
    pub fn flush(&mut self, i: usize, request: RequestNo) -> Option<Entry>
        requires known { i < length self.old.clients }
        ensures taken { option_map queued_of result ≡ option_map without_due
            (least (is_owned (Ask i request)) queued_number self.old.queued) }
        ensures left { ChangesQueued (without_least (is_owned (Ask i request)) queued_number)
            self.old self.new }
    {
        let owner = Owner::Ask {
            session: self.sides[i].session.session(),
            request,
        };
        let flushed = self.queue.flush(&owner);
        let Some(entry) = flushed else {
            return None;
        };
        flushed_at(&mut self.sides, i, &mut self.pool, &entry);
        Some(entry)
    }

    /// Takes the queued reply of least number to a request of a server session out, unsent. None
    /// comes exactly where none of them is queued.
    pub fn flush_reply(&mut self, session: SessionNo, request: RequestNo) -> Option<Entry>
        ensures taken { option_map queued_of result ≡ option_map without_due
            (least (is_owned (OfReply session request)) queued_number self.old.queued) }
        ensures left { ChangesQueued (without_least (is_owned (OfReply session request))
            queued_number) self.old self.new }
    {
        let owner = Owner::Reply { session, request };
        let flushed = self.queue.flush(&owner);
        let Some(entry) = flushed else {
            return None;
        };
        reply_flushed_at(&mut self.servers, session, &mut self.pool, &entry);
        Some(entry)
    }

    /// At the end of a poll at `now`, in microseconds, what was due by then is ready.
    pub fn make_ready(&mut self, now: u64)
        ensures { ChangesQueued (map (made_ready now)) self.old self.new }
    {
        self.queue.make_ready(now);
    }
}
