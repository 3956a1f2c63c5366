//! The steps of a table are taken, and what comes of each is compared with what has to.
use crate::bench::{Bench, FIRST, Made};
use crate::buffers::{asking, zeros};
use crate::differs::{Differs, expect};
use crate::step::Step;
use crate::told;
use endpoint_loop::{AskError, Delivery, LinkFault, Turn};
use message_buffer::MsgBuf;
use rpc_base::{Event, SessionNo, SessionState};
use rpc_outside::Service;
use worker_crew::Workers;

/// The session of each pair.
const SESSION: SessionNo = SessionNo(0);

/// A session that was never opened.
const NEVER: SessionNo = SessionNo(7);

/// The room for the answer of a call that is refused.
const REFUSED_ROOM: u32 = 16;

impl<V: Service, W: Workers> Bench<V, W> {
    fn expect_client(&mut self, credits: u16, answer: Made) -> Result<(), Differs> {
        let peer = self.peer;
        let made = self.pair_client(peer, FIRST, SESSION, credits)?;
        expect(made == answer, Differs::Answer)
    }

    fn expect_server(&mut self, credits: u16, answer: Made) -> Result<(), Differs> {
        let peer = self.peer;
        let made = self.pair_server(peer, FIRST, SESSION, credits)?;
        expect(made == answer, Differs::Answer)
    }

    fn set_rate(
        &mut self,
        session: SessionNo,
        rate: u32,
        answer: Result<(), SessionState>,
    ) -> Result<(), Differs> {
        let set = self.endpoint.set_rate(session, rate, &mut self.recorder);
        expect(set == answer, Differs::Answer)
    }

    // Asks a call of these bytes on session 0, which has to accept it.
    fn call(&mut self, req_type: u8, bytes: &[u8], room: u32, tag: u64) -> Result<(), Differs> {
        let req = asking(&mut self.memory, bytes)?;
        let resp = zeros(&mut self.memory, room)?;
        let asked = self.ask(SESSION, req_type, req, resp, tag);
        expect(asked.is_ok(), Differs::Answer)
    }

    // The call of so many zeros is refused so, and both buffers come back.
    fn refuse(&mut self, len: u32, why: AskError) -> Result<(), Differs> {
        let req = zeros(&mut self.memory, len)?;
        let resp = MsgBuf::new(&mut self.memory, REFUSED_ROOM)?;
        let Err(refused) = self.ask(NEVER, 1, req, resp, 0) else {
            return Err(Differs::Answer);
        };
        let comes_back = refused.req.len() == len && refused.resp.capacity() == REFUSED_ROOM;
        expect(refused.why == why && comes_back, Differs::Answer)
    }

    /// A datagram of the other node comes, and is answered so.
    pub fn expect_delivery(&mut self, bytes: &[u8], answer: Delivery) -> Result<(), Differs> {
        let peer = self.peer;
        let delivery = self.deliver(peer, bytes);
        expect(delivery == answer, Differs::Answer)
    }

    /// A poll at the moment 0 answers so.
    pub fn expect_poll(&mut self, answer: Result<Turn, LinkFault>) -> Result<(), Differs> {
        let polled = self.poll(0);
        expect(polled == answer, Differs::Turn)
    }

    fn expect_turn(&mut self, answer: Result<Turn, LinkFault>) -> Result<(), Differs> {
        let turned = self.turn();
        expect(turned == answer, Differs::Turn)
    }

    fn expect_counts(&self, ran: u64, overflowed: u64) -> Result<(), Differs> {
        let counts = self.endpoint.counts();
        let as_wanted = counts.ran == ran && counts.overflowed == overflowed;
        expect(as_wanted, Differs::State)
    }

    fn expect_sent(&self, n: u32, bytes: &[u8]) -> Result<(), Differs> {
        let wanted = Some((self.peer, bytes));
        expect(self.link.sent(n) == wanted, Differs::Sent)
    }

    fn expect_sent_facts(&self, wanted: u32) -> Result<(), Differs> {
        let mut count = 0u32;
        for fact in self.recorder.facts() {
            if matches!(fact.event, Event::Sent { .. }) {
                count = count.saturating_add(1);
            }
        }
        expect(count == wanted, Differs::Sent)
    }

    fn expect_done(&self, n: usize, tag: u64, answer: &[u8], room: u32) -> Result<(), Differs> {
        let Some(done) = self.kept.done(n) else {
            return Err(Differs::Done);
        };
        expect(done.tag == tag, Differs::Done)?;
        expect(done.resp.bytes() == answer, Differs::Done)?;
        expect(done.resp.capacity() == room, Differs::Buffer)
    }

    /// Takes a step, and goes on where it comes to what it has to.
    pub fn take(&mut self, step: &Step) -> Result<(), Differs> {
        match step {
            Step::PairClient { credits, answer } => self.expect_client(*credits, *answer),
            Step::PairServer { credits, answer } => self.expect_server(*credits, *answer),
            Step::SetRate {
                session,
                rate,
                answer,
            } => self.set_rate(*session, *rate, *answer),
            Step::Call {
                req_type,
                bytes,
                room,
                tag,
            } => self.call(*req_type, *bytes, *room, *tag),
            Step::Refuse { len, why } => self.refuse(*len, *why),
            Step::Deliver { bytes, answer } => self.expect_delivery(*bytes, *answer),
            Step::Poll { handled, sent } => self.expect_poll(did(*handled, *sent)),
            Step::PollFails => self.expect_poll(Err(LinkFault)),
            Step::Turn { handled, sent } => self.expect_turn(did(*handled, *sent)),
            Step::TurnFails => self.expect_turn(Err(LinkFault)),
            Step::Facts(lines) => { told::expect_facts(&mut self.memory, &self.recorder, *lines) },
            Step::Quiet => expect(self.endpoint.quiet(), Differs::State),
            Step::Counts { ran, overflowed } => self.expect_counts(*ran, *overflowed),
            Step::Sent { n, bytes } => self.expect_sent(*n, *bytes),
            Step::Unsent(n) => expect(self.link.sent(*n).is_none(), Differs::Sent),
            Step::SentFacts(wanted) => self.expect_sent_facts(*wanted),
            Step::Ended(count) => expect(self.kept.count() == Some(*count), Differs::Done),
            Step::Done {
                n,
                tag,
                answer,
                room,
            } => self.expect_done(*n, *tag, *answer, *room),
        }
    }

    /// Takes these steps, one after another.
    pub fn take_all(&mut self, steps: &[Step]) -> Result<(), Differs> {
        for step in steps {
            self.take(step)?;
        }
        Ok(())
    }
}

/// What a poll answers that handled and sent so many packets over a link that is neither busy nor
/// at fault.
pub fn did(handled: u32, sent: u32) -> Result<Turn, LinkFault> {
    Ok(Turn {
        handled,
        sent,
        busy: false,
    })
}
