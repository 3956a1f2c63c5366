//! The queue: the transmit ring, and behind it the pacer.
ghost use Rattle.std.specs.Prelude.{◌≡◌, ◌<◌, ◌≤◌, [], drop, false, length, map, option_map};
ghost use Rattle.std.specs.Prelude.{slice_get, IfNone, IfSome, IsSome, IsTrue, true};
ghost use Rattle.std.specs.List.{list_any};
ghost use Rattle.pacing_wheel.specs.Wheel.{entry_of, is_due, is_of as is_paced_of};
ghost use Rattle.pacing_wheel.specs.Wheel.{number_of as paced_number, wheel};
ghost use Rattle.rpc_base.specs.Least.{least, least_number, without_least};
ghost use Rattle.rpc_base.specs.Taking.{TakenOut};
ghost use Rattle.packet_rings.specs.Entries.{is_entry, is_of, is_reply, number_of, option_is};
ghost use Rattle.packet_rings.specs.Rings.{ring};
ghost use Rattle.rpc_laws.specs.Pacing.{line};
ghost use Rattle.rpc_laws.specs.Queues.{made_ready, put_queued};
ghost use Rattle.session_ends.specs.Joined.{PacesIn, is_some_due, joined_in, queue_in, queued_at};
ghost use Rattle.session_ends.specs.Joined.{ready_first, is_owned, queued_number};

use pacing_wheel::Pacer;
use packet_rings::{Entry, TxRing};
use rpc_base::Owner;

/// The packet in front of a queue: its entry, and its body where it lies.
#[derive(Drop)]
pub struct Front<'a> {
    /// What is queued of it.
    pub entry: Entry,
    /// Its bytes behind the header.
    pub body: &'a [u8],
}

/// What is queued: a ring of what is ready, and behind it a pacer of what has a time when it is
/// due. Whoever has a queue keeps of it that no reply is paced, and that the pacer has room for half
/// as many entries as the ring (`PacesIn`): each call that changes it wants that, and leaves it so.
#[derive(Drop)]
pub struct Queue {
    /// What is ready, the oldest first. A server session takes the replies that it gives up out of
    /// it, and its replies are pushed behind it, since none is ever paced.
    pub tx: TxRing,
    /// What has a time when it is due: packets of calls alone.
    pub pacer: Pacer,
}

impl Queue {
    /// The first entry where it may be sent at `now`, in microseconds: the oldest one of the ring
    /// or, where that is empty, the one of the pacer that is due first. None comes exactly where
    /// none may.
    pub fn front(&self, now: u64) -> Option<Entry>
        ensures front { IfSome result (λ e. slice_get (joined_in self.now).items 0 ≡ Some e) }
        ensures due { IfSome result
            (λ e. is_some_due now (slice_get (queue_in self.now) 0) ≡ true) }
        ensures none { IfNone result (line now (queue_in self.now) ≡ []) }
    {
        match self.tx.front() {
            Some(entry) => Some(*entry),
            None => paced_due(&self.pacer, now),
        }
    }

    /// Takes the first entry out. None comes exactly where both are empty. An entry of the pacer
    /// is looked for up to `now` first, in microseconds, and the next look begins where it stood.
    pub fn pop(&mut self, now: u64) -> Option<Entry>
        requires paces { PacesIn self.old }
        ensures front { result ≡ slice_get (joined_in self.old).items 0 }
        ensures rest { joined_in self.new
            ≡ ring (drop 1 (joined_in self.old).items) self.old.tx.size }
        ensures queue { queue_in self.new ≡ drop 1 (queue_in self.old) }
        ensures paces { PacesIn self.new }
    {
        match self.tx.pop() {
            Some(entry) => Some(entry),
            None => take_first(&mut self.pacer, now),
        }
    }

    /// Puts an entry in: behind the ring, or into the pacer where it has a time when it is due, in
    /// microseconds. There is room for it, and no reply has such a time.
    pub fn put(&mut self, due: Option<u64>, entry: Entry)
        requires room { length (joined_in self.old).items < self.old.tx.size }
        requires paced { IsSome due → length self.old.pacer.items < self.old.pacer.size }
        requires call { IsSome due → is_reply entry ≡ false }
        requires paces { PacesIn self.old }
        ensures put { TakenOut (λ d. false) entry (joined_in self.new).items
            (joined_in self.old).items }
        ensures size { self.new.tx.size ≡ self.old.tx.size }
        ensures queue { queue_in self.new
            ≡ put_queued (queued_at due entry) (queue_in self.old) }
        ensures paces { PacesIn self.new }
    {
        match due {
            Some(due) => self.pacer.add(due, entry),
            None => self.tx.push(entry),
        }
    }

    /// Tells whether that owner's packet of this number is queued.
    pub fn holds(&self, owner: &Owner, number: u16) -> bool
        ensures { result ≡ list_any (is_entry owner.now number) (joined_in self.now).items }
    {
        self.tx.holds(*owner, number) || self.pacer.holds(*owner, number)
    }

    // Whether that owner's entry of least number stands in the ring.
    fn is_least_ready(&self, owner: &Owner) -> bool
        ensures { result ≡ ready_first (least_number (is_of owner.now) number_of self.now.tx.items)
            (least_number (is_paced_of owner.now) paced_number self.now.pacer.items) }
    {
        let Some(paced) = self.pacer.least(*owner) else {
            return true;
        };
        match self.tx.least(*owner) {
            Some(ready) => ready <= paced,
            None => false,
        }
    }

    /// Takes out that owner's entry of least number, among equals the one nearest to the front. The
    /// others keep their order. None comes exactly where the owner has no entry.
    pub fn flush(&mut self, owner: &Owner) -> Option<Entry>
        requires paces { PacesIn self.old }
        ensures taken { result ≡ least (is_of owner.now) number_of (joined_in self.old).items }
        ensures left { joined_in self.new ≡ ring (without_least (is_of owner.now) number_of
            (joined_in self.old).items) self.old.tx.size }
        ensures unchanged { IfNone result
            ((self.new.tx ≡ self.old.tx) × (self.new.pacer ≡ self.old.pacer)) }
        ensures own { IfSome result (λ e. IsTrue (is_of owner.now e)) }
        ensures nearest { IfSome result (λ e. TakenOut (is_entry owner.now e.number) e
            (joined_in self.old).items (joined_in self.new).items) }
        ensures queue { queue_in self.new
            ≡ without_least (is_owned owner.now) queued_number (queue_in self.old) }
        ensures paces { PacesIn self.new }
    {
        if self.is_least_ready(owner) {
            return self.tx.flush(*owner);
        }
        self.pacer.flush(*owner)
    }

    /// What is due at `now` is put behind the ring, in its order.
    pub fn make_ready(&mut self, now: u64)
        requires room { length (joined_in self.old).items ≤ self.old.tx.size }
        requires paces { PacesIn self.old }
        ensures same { joined_in self.new ≡ joined_in self.old }
        ensures queue { queue_in self.new ≡ map (made_ready now) (queue_in self.old) }
        ensures paces { PacesIn self.new }
    {
        'packets: while let Some(entry) = take_due(&mut self.pacer, now) {
            self.tx.push(entry);
        }
    }
}

// The entry of the pacer that is due first, where it is due at `now`.
fn paced_due(pacer: &Pacer, now: u64) -> Option<Entry>
    ensures first { IfSome result
        (λ e. option_map entry_of (slice_get pacer.now.items 0) ≡ Some e) }
    ensures due { IfSome result (λ _. option_is (is_due now) (slice_get pacer.now.items 0) ≡ true) }
    ensures none { IfNone result (list_any (is_due now) pacer.now.items ≡ false) }
{
    if pacer.is_empty() {
        return None;
    }
    pacer.sound();
    let Some(paced) = pacer.first_due(now) else {
        return None;
    };
    Some(paced.entry)
}

// Takes the entry of the pacer that is due first out, where it is due at `now`.
fn take_due(pacer: &mut Pacer, now: u64) -> Option<Entry>
    ensures first { IfSome result
        (λ e. option_map entry_of (slice_get pacer.old.items 0) ≡ Some e) }
    ensures due { IfSome result (λ _. option_is (is_due now) (slice_get pacer.old.items 0) ≡ true) }
    ensures left { IfSome result (λ _. pacer.new ≡ wheel (drop 1 pacer.old.items) pacer.old.size) }
    ensures none { IfNone result (list_any (is_due now) pacer.old.items ≡ false) }
    ensures unchanged { IfNone result (pacer.new ≡ pacer.old) }
{
    if pacer.is_empty() {
        return None;
    }
    pacer.sound();
    pacer.release(now)
}

// Takes the entry of the pacer that is due first out: by a look that ends at `now`, where it is due
// by then.
fn take_first(pacer: &mut Pacer, now: u64) -> Option<Entry>
    ensures front { result ≡ option_map entry_of (slice_get pacer.old.items 0) }
    ensures rest { pacer.new ≡ wheel (drop 1 pacer.old.items) pacer.old.size }
{
    match take_due(pacer, now) {
        Some(entry) => Some(entry),
        None => pacer.pop(),
    }
}
