//! A fan, and the rights to read it.
ghost use Rattle.std.specs.Prelude.{◌≡◌, ◌≤◌, length, IfSome, IfOk, IfErr, option_map};
ghost use Rattle.message_buffer.specs.Buffer.{bytes_of};
ghost use Rattle.rpc_base.specs.declared.limits.TheConstants.{MOST_CAPACITY};
ghost use Rattle.fan_buffer.specs.Fans.{fan_bytes, HasBytes};
ghost use Rattle.fan_buffer.specs.Readings.{IsReadingOf, message_shown};

use crate::reading::Reading;
use counted_slot::{Counted, FREE, Fits, MOST_READERS, ONE_READER, PRESENT, TAKEN};
use message_buffer::MsgBuf;
use std::snapshot::Snapshot;

/// The fan's buffer, while it is there.
#[derive(Drop)]
pub(crate) struct Held {
    pub(crate) buf: MsgBuf,
}

impl Fits for Held {
    ghost use Rattle.message_buffer.specs.Buffer.{bytes_of};

    type Tag = Snapshot<MsgBuf>;

    ghost fits = { λ tag x. bytes_of x.buf ≡ bytes_of tag.value };
}

/// A buffer that several read.
#[derive(Drop)]
pub struct Fan {
    slot: Counted<Option<Held>>,
}

/// What `Fan::take` gave.
#[derive(Debug, Drop)]
pub enum Taking {
    Buffer(MsgBuf),
    /// Another had a right at that moment.
    Lost,
    /// The buffer was taken before.
    Gone,
}

impl Fan {
    /// A fan of this buffer's bytes. `Err` hands the buffer back; it comes only where the turn that
    /// puts the buffer in isn't won, and nobody else can make a turn of a fan that is being made.
    pub fn new(buf: MsgBuf) -> Result<Fan, MsgBuf>
        ensures bytes { IfOk result (λ fan. fan_bytes fan ≡ bytes_of buf) }
        ensures back { IfErr result (λ back. back ≡ buf) }
    {
        let tag = Snapshot::of(&buf);
        let slot = Counted::new(None, &tag);
        let (found, claim) = slot.turn(FREE, TAKEN);
        if found != FREE {
            claim.done();
            return Err(buf);
        }
        let _none = claim.put(Some(Held { buf }), PRESENT);
        Ok(Fan { slot })
    }

    /// Opens a right to read, by one turn. `None` comes only where that turn wasn't won.
    pub fn open(&self) -> Option<Reading<'_>>
        ensures { IfSome result (λ reading. IsReadingOf self.now reading) }
    {
        let seen = self.slot.load();
        let old = if seen % ONE_READER == PRESENT && seen / ONE_READER < MOST_READERS {
            seen
        } else {
            PRESENT
        };
        let (found, claim) = self.slot.turn(old, old + ONE_READER);
        if found != old {
            claim.done();
            return None;
        }
        Some(Reading { claim })
    }

    /// Gives a right to read back.
    pub fn close(&self, reading: Reading<'_>)
        requires { IsReadingOf self.now reading }
    {
        let Reading { claim } = reading;
        claim.leave();
    }

    /// The fan's bytes, by a right to read them. `None` comes exactly where the right shows that
    /// the buffer was taken.
    pub fn bytes<'b>(&self, reading: &'b Reading<'_>) -> Option<&'b [u8]>
        requires { IsReadingOf self.now reading.now }
        ensures bytes { IfSome result (λ b. b.now ≡ fan_bytes self.now) }
        ensures most { IfSome result (λ b. length b.now ≤ MOST_CAPACITY) }
        ensures shown { option_map (λ b. b.now) result ≡ message_shown reading.now }
    {
        match reading.claim.get() {
            Some(held) => {
                let _most = (held.buf.len(), held.buf.capacity());
                Some(held.buf.bytes())
            }
            None => None,
        }
    }

    /// Takes the buffer out, by one turn for the right to write. `Lost` comes only where that turn
    /// wasn't won, and `Gone` only where the buffer was taken before.
    pub fn take(&self) -> Taking
        ensures { HasBytes (fan_bytes self.now) result }
    {
        let (found, claim) = self.slot.turn(PRESENT, TAKEN);
        if found != PRESENT {
            claim.done();
            return Taking::Lost;
        }
        match claim.put(None, PRESENT) {
            Some(held) => {
                let Held { buf } = held;
                Taking::Buffer(buf)
            }
            None => Taking::Gone,
        }
    }
}
